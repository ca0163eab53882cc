//! The last answer of a node.

ghost use Rattle.std.specs.Prelude.{◌≡◌, ◌<◌, length, slice_index_or};
ghost use Rattle.sja_driver.specs.declared.logged_driver.LoggedDriver.{LoggedDriver};
ghost use Rattle.sja_driver.specs.LoggedDrivers.{log_of};
ghost use Rattle.sja_driver.specs.Logs.{done_in};
ghost use Rattle.sja_steps.specs.declared.step_record.StepRecord.{StepRecord};
ghost use Rattle.sja_session.specs.Answering.{last_of};

use super::session::Session;
use sja_serial::SerialRun;
use sja_steps::StepAnswer;

impl Session {
    ghost use Rattle.std.specs.Prelude.{◌≡◌, List};
    ghost use Rattle.sja_driver.specs.StepRuns.{StepRun, step_runs_at};
    ghost use Rattle.sja_session.specs.Answering.{last_answer};
    ghost use Rattle.sja_session.specs.Sessions.{IsAt};

    /// What the last step of a node, counted from 0, answered that is done. None where none is done, or there is no
    /// such node.
    pub fn answer(&self, node: u8) -> Option<StepAnswer>
        ensures { (step_runs : List (List StepRun)) → IsAt self.now step_runs →
            result ≡ last_answer (step_runs_at step_runs node) }
    {
        let place = usize::from(node);
        if place >= self.plan.nodes() {
            return None;
        }
        last_answer(&self.run, place)
    }
}

/// What the last step answered that the log of this driver has, if it has one.
#[inline(always)]
pub(crate) fn last_answer(run: &SerialRun, node: usize) -> Option<StepAnswer>
    requires { node < length run.now.drivers }
    ensures { (d : LoggedDriver) →
        result ≡ last_of (λ (x : StepRecord). x.answer) (done_in (log_of (slice_index_or run.now.drivers node d))) }
{
    match run.driver(node).log().last_done() {
        Some(last) => Some(last.answer.copy()),
        None => None,
    }
}
