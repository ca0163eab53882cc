//! Reads and writes of a session by addresses and bytes.

ghost use Rattle.std.specs.Prelude.{◌≡◌};
ghost use Rattle.sja_driver.specs.Answered.{value_or};

use super::session::Session;
use super::step_fault::StepFault;
use super::step_outcome::StepOutcome;
use sja_driver::UnmodelledRegisters;
use sja_plan::FIRST_BY_BYTES;
use sja_steps::{Step, StepAnswer};

impl Session {
    ghost use Rattle.std.specs.Prelude.{◌≡◌, List, IfOk, IfErr, OnOk, OnErr};
    ghost use Rattle.sja_driver.specs.StepRuns.{StepRun};
    ghost use Rattle.sja_session.specs.ByAddress.{Reads, Writes, MayWrite, IsWriteFault};
    ghost use Rattle.sja_session.specs.Sessions.{IsAt};
    ghost use Rattle.sja_session.specs.Stepping.{MayStep, IsStepFault};

    /// Reads an address of a node, counted from 0, now: any address, in either mode. It is the step `Read` of the plan;
    /// where no register of the port can be read the value is the byte that is kept there, or 0. Reading IR clears it
    /// but for RI; reading ALC or ECC allows the next capture (SJA1000 data sheet, 6.4.6 to 6.4.9).
    ///
    /// Errors: those of [`step`](Session::step), and nothing changed.
    #[inline(always)]
    pub fn read(&mut self, node: u8, address: u8) -> Result<u8, StepFault>
        ensures reads { IfOk result (λ value. (step_runs : List (List StepRun)) → IsAt self.old step_runs →
            Reads self.old self.new node address value step_runs) }
        ensures may { OnOk result (MayStep self.old node) }
        ensures err { IfErr result (IsStepFault self.old node) }
        ensures kept { OnErr result (self.new ≡ self.old) }
    {
        self.stands();
        let kept = self.kept(node);
        match self.step(node, Step::Read(address))? {
            StepOutcome::Answer(answer) => Ok(value_of(&answer, kept.read(address))),
            StepOutcome::Waits => unreachable!(),
        }
    }

    /// Writes a byte to an address of a node, counted from 0, now: any byte to any address, in either mode. In version
    /// 3 it is the step `Write` of the plan; in versions 1 and 2 it is up to three typed steps, one right after the
    /// other. What can't be done is left out, and no write is refused.
    ///
    /// Errors, the first that holds, and nothing changed: [`StepFault::NoNode`] where there is no such node;
    /// [`StepFault::StepsUsed`] where there is room for fewer steps of it than the write is; [`StepFault::TurnsUsed`]
    /// where it is a step, as many turns were taken as there is room for, and the last one isn't of this node.
    #[inline(always)]
    pub fn write(&mut self, node: u8, address: u8, value: u8) -> Result<(), StepFault>
        ensures writes { OnOk result ((step_runs : List (List StepRun)) → IsAt self.old step_runs →
            Writes self.old self.new node address value step_runs) }
        ensures may { OnOk result ((step_runs : List (List StepRun)) → IsAt self.old step_runs →
            MayWrite self.old node address value step_runs) }
        ensures err { IfErr result (λ fault. (step_runs : List (List StepRun)) → IsAt self.old step_runs →
            IsWriteFault self.old node address value step_runs fault) }
        ensures kept { OnErr result (self.new ≡ self.old) }
    {
        if self.plan.version() < FIRST_BY_BYTES {
            return self.write_typed(node, address, value);
        }
        self.write_byte(node, address, value)
    }
}

impl Session {
    ghost use Rattle.std.specs.Prelude.{◌≡◌, ◌<◌, true, length, slice_index_or};
    ghost use Rattle.sja_driver.specs.StepRuns.{by_bytes};
    ghost use Rattle.sja_driver.specs.LoggedDrivers.{kept_of};
    ghost use Rattle.sja_driver.specs.declared.logged_driver.LoggedDriver.{LoggedDriver};
    ghost use Rattle.sja_session.specs.Inside.Accessing.{AnswersWrite, Stands};

    /// It stands somewhere. It does nothing: a caller who needs that calls it for its contract.
    #[inline(always)]
    pub(crate) fn stands(&self)
        ensures { Stands self.now }
    {
        let _ = &self.run;
    }

    /// The bytes that are kept for the driver of a node, if there is such a node.
    #[inline(always)]
    fn kept(&self, node: u8) -> UnmodelledRegisters
        ensures { node < length self.now.plan.nodes → (d : LoggedDriver) →
            result ≡ kept_of (slice_index_or self.now.run.drivers node d) }
    {
        let place = usize::from(node);
        if place >= self.plan.nodes() {
            return UnmodelledRegisters::new();
        }
        self.run.driver(place).kept()
    }

    /// A write that is one step of the plan.
    #[inline(always)]
    fn write_byte(&mut self, node: u8, address: u8, value: u8) -> Result<(), StepFault>
        requires bytes { by_bytes self.old.plan.version ≡ true }
        ensures { AnswersWrite self.old self.new node address value result }
    {
        self.stands();
        match self.step(node, Step::Write(address, value))? {
            StepOutcome::Answer(_) => Ok(()),
            StepOutcome::Waits => unreachable!(),
        }
    }
}

/// What a step read, or another number where it read none.
#[inline(always)]
fn value_of(answer: &StepAnswer, other: u8) -> u8
    ensures { result ≡ value_or answer.now other }
{
    match answer {
        StepAnswer::Value(value) => *value,
        _ => other,
    }
}
