//! The end of a run: its log.

use super::left_on_links::all_left_down;
use super::serial_run::SerialRun;
use sja_log::{End, NoLog, RunLog};
use sja_promises::node_runs;
use std::alloc::Global;

impl SerialRun {
    ghost use Rattle.std.specs.Prelude.{◌≡◌, List, Err, IfOk, OnOk};
    ghost use Rattle.sja_driver.specs.StepRuns.{StepRun};
    ghost use Rattle.sja_plan.specs.Plan.{PlanValue};
    ghost use Rattle.sja_log.specs.declared.no_log.NoLog.TheVariants.{Endless};
    ghost use Rattle.sja_serial.specs.LoggedRuns.{KeepsRun};
    ghost use Rattle.sja_serial.specs.Serial.{Setup, StandsBy, IsRunBy};
    ghost use Rattle.sja_serial.specs.Ending.{IsLogOf, MayBeOf};

    /// The log of the run, which ends so: of each node its journal, its error counters, the steps done, and of each
    /// activation what was released, and what was left unread, by the driver and on the link. It is the log of a run of
    /// each plan that has these steps.
    ///
    /// Errors: [`NoLog::Endless`] where the run was made for more than its lists keep, or had more bits than 32 bits
    /// count, as none of the size of a plan; [`NoLog::Memory`] where memory was refused before that was seen.
    pub fn finish(self, alloc: Global, end: End) -> Result<RunLog, NoLog>
        ghost setup: { Setup }
        requires run { IsRunBy setup self }
        ensures log { IfOk result (λ log. (plan : PlanValue) (step_runs : List (List StepRun)) →
            StandsBy setup self step_runs → MayBeOf plan setup step_runs → IsLogOf plan self step_runs end log) }
        ensures kept { OnOk result (KeepsRun self) }
        ensures endless { result ≡ Err Endless → KeepsRun self → ⊥ }
    {
        let version = self.version();
        let SerialRun {
            bus,
            drivers,
            links,
            bits,
            ..
        } = self;
        if bits > u64::from(u32::MAX) {
            return Err(NoLog::Endless);
        }
        let run = bits as u32;
        let lists = all_left_down(alloc, links.as_slice())?;
        let logs = bus.finish()?;
        let nodes = node_runs(alloc, logs, drivers.as_slice(), lists.as_slice())?;
        Ok(RunLog::of(version, run, end, nodes))
    }
}
