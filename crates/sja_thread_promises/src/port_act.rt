//! [`PortAct`]: an act at a port.

use sja_regs::DriverSettings;
use sja_steps::{Step, StepAnswer};

/// An act of a driver at its port (this project's own rule): what it did, what that answered, what was set at the port
/// then, and how many bits had run by what the port was told.
#[derive(Drop)]
pub struct PortAct {
    /// The step.
    pub step: Step,
    /// What it answered.
    pub answer: StepAnswer,
    /// What was set at the port then.
    pub set: DriverSettings,
    /// How many bits had run.
    pub bits: u32,
}
