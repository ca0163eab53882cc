//! Steps that were done.

use super::step_answer::StepAnswer;

/// A step that was done, as a driver's log has it (this project's own rule).
#[derive(Debug, PartialEq, Eq, Drop)]
pub struct StepRecord {
    /// What it answered.
    pub answer: StepAnswer,
    /// How many bits the bus had run before it; 0 where that isn't counted.
    pub bits: u64,
}
