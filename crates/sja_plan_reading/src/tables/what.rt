//! What stands with a key on its line.

/// What stands with a key.
#[derive(Clone, Copy)]
pub(crate) enum What {
    /// A value.
    Pair,
    /// A header in single brackets.
    Table,
    /// A header in double brackets.
    Array,
}
