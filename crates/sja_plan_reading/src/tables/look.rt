//! What is seen of a long text without its tables.

/// What is seen of a long text.
#[derive(Clone, Copy)]
pub(crate) enum Look {
    /// It is a document that isn't shaped as a plan is.
    Strange,
    /// It is no document.
    NoToml,
    /// Nothing, so that its tables have to be built.
    Open,
}
