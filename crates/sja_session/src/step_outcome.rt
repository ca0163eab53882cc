//! What comes of a step.

use sja_steps::StepAnswer;

/// What comes of a step that was tried (this project's own rule).
#[derive(Debug, PartialEq, Eq, Drop)]
pub enum StepOutcome {
    /// The step is done, and this is its answer. A step that its driver or its controller refuses is done too.
    Answer(StepAnswer),
    /// The step has to wait, and nothing happened: too few messages have come, the transmit buffer isn't released, or
    /// the interrupt line isn't active.
    Waits,
}
