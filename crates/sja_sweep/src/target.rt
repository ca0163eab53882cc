//! [`Target`]: a node and a bit to strike.

/// A node and a bit to strike, both counted from 0.
#[derive(Clone, Copy)]
pub(crate) struct Target {
    /// The node.
    pub(crate) node: u8,
    /// The bit.
    pub(crate) bit: u32,
}
