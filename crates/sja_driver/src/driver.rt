//! The driver of a node.

/// The driver of a node, in one of its two states: [`Reset`](super::Reset) or [`Active`](super::Active).
///
/// Each call that a state doesn't have is refused by the compiler. A start leads to the active state, a stop back.
#[derive(Debug, Drop)]
pub struct Driver<S> {
    pub(crate) state: S,
}
