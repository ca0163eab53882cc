//! [`Starts`]: what the starts of a node have come to.

/// What the starts of a node have come to, as its steps go on.
#[derive(Clone, Copy)]
pub(crate) enum Starts {
    /// It wasn't started yet.
    NoneYet,
    /// It was started, and may be once more.
    Begun,
    /// One was refused since none is left.
    Spent,
}
