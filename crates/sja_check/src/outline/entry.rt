//! [`Entry`]: a key of a document.

/// A key of a document: of which node it is, if of one, at which piece it stands, and at which its value begins. The
/// name in a header is a key of no node, without a value of its own.
#[derive(Clone, Copy)]
pub(crate) struct Entry {
    pub(crate) node: Option<usize>,
    pub(crate) key: usize,
    pub(crate) value: Option<usize>,
}
