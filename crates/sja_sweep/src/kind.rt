//! [`Kind`]: one kind of outcome.

/// One kind of outcome: what is counted of it.
#[derive(Clone, Copy)]
pub(crate) enum Kind {
    /// Nothing is otherwise but levels, times and counters.
    Same,
    /// What reads of ECC answer is otherwise, and nothing else.
    Ecc,
    /// A message was got more often in an activation.
    Twice,
    /// A message was got less often in an activation.
    Lost,
    /// A driver did fewer steps.
    Stuck,
    /// Something else is otherwise, and none of these three.
    Other,
    /// Anything is otherwise that isn't [`Kind::Ecc`].
    Changed,
}
