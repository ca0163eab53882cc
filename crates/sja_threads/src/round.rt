//! [`Round`]: what a round of the bus came to.

/// What a round of the bus came to (this project's own rule).
#[derive(Clone, Copy, Debug, PartialEq, Eq)]
pub(crate) enum Round {
    /// A bit was run.
    Ran,
    /// No bit is due.
    Rests,
    /// A bit is due, and none is left.
    Spent,
}
