//! What comes of bits until every controller is at rest.

/// What comes of bits that were run until every controller is at rest (this project's own rule).
#[derive(Clone, Copy, Debug, PartialEq, Eq)]
pub struct RestOutcome {
    /// How many bits were run.
    pub bits: u32,
    /// Whether every controller is at rest now. If not, the plan has no bit left.
    pub at_rest: bool,
}
