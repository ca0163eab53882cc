//! [`Spot`]: something in a plan's document that has a line.

use super::super::kind::Kind;

/// Something in a plan's document that has a line. Nodes and texts count from 0.
#[derive(Clone, Copy)]
pub(crate) enum Spot<'a> {
    /// A key above all headers, or the first header with this name.
    Key(&'a str),
    /// A node: its header, or its inline table.
    Node(usize),
    /// A key of a node; the node where the key isn't found.
    NodeKey(usize, &'a str),
    /// The text of this kind and number.
    Text(Kind, usize),
}
