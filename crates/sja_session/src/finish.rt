//! The end of a session: its plan and its log.

use super::no_plan::NoPlan;
use super::session::Session;
use sja_log::{End, RunLog};
use sja_plan::Plan;
use std::alloc::Global;

impl Session {
    ghost use Rattle.std.specs.Prelude.{◌≡◌, List, IfOk, IfErr, OnOk};
    ghost use Rattle.sja_driver.specs.StepRuns.{StepRun};
    ghost use Rattle.sja_log.specs.declared.end.End.TheVariants.{Turns as TurnsDone};
    ghost use Rattle.sja_promises.specs.Headline.{AreAccounts};
    ghost use Rattle.sja_promises.specs.Runs.{IsSerialRun};
    ghost use Rattle.sja_serial.specs.Ending.{IsLogOf};
    ghost use Rattle.sja_session.specs.Ending.{IsNoPlan};
    ghost use Rattle.sja_session.specs.Sessions.{HasEnd, IsAt, written};

    /// The plan that the session wrote, and its log, which has the session's own bits, journals and steps, and is that
    /// of a run in one thread of this plan: what [`run_serial`](sja_serial::run_serial) promises of a log holds of it.
    ///
    /// Errors: [`NoPlan::Endless`] where the session is without an end; [`NoPlan::Memory`] where memory was refused.
    pub fn finish(self, alloc: Global) -> Result<(Plan, RunLog), NoPlan>
        ensures plan { IfOk result (λ both. both.0 ≡ written self) }
        ensures own { IfOk result (λ both. (step_runs : List (List StepRun)) → IsAt self step_runs →
            IsLogOf both.0 self.run step_runs TurnsDone both.1) }
        ensures run { IfOk result (λ both. IsSerialRun both.0 both.1) }
        ensures headline { IfOk result (λ both. AreAccounts both.1) }
        ensures end { OnOk result (HasEnd self) }
        ensures err { IfErr result (IsNoPlan self) }
    {
        let plan = self.plan(alloc)?;
        plan.limits();
        let log = self.run.finish(alloc, End::Turns)?;
        Ok((plan, log))
    }
}
