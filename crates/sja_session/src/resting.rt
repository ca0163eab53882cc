//! The bits of a session until every controller is at rest.

use super::rest_outcome::RestOutcome;
use super::session::Session;
use super::turns::note_bits;
use super::turns_used::TurnsUsed;
use sja_plan::MOST_BITS_BY_BYTES;

impl Session {
    ghost use Rattle.std.specs.Prelude.{◌≡◌, List, IfOk, OnOk, OnErr};
    ghost use Rattle.sja_driver.specs.StepRuns.{StepRun};
    ghost use Rattle.sja_session.specs.SessionRest.{Rests};
    ghost use Rattle.sja_session.specs.Running.{MayRun, LacksBusTurn};
    ghost use Rattle.sja_session.specs.Sessions.{IsAt};

    /// Runs bits until every controller is at rest: in reset, or idle with no request. Or as many as are left, of which
    /// a session without an end runs 2,000,000 at most. It says how many, and whether they came to rest. The plan has
    /// them as a turn of so many bits.
    ///
    /// Error: [`TurnsUsed`] where as many turns were taken as there is room for, the last one isn't of the bus, and a
    /// bit is left. Nothing changed.
    pub fn rest(&mut self) -> Result<RestOutcome, TurnsUsed>
        ensures rests { IfOk result (λ r. (step_runs : List (List StepRun)) → IsAt self.old step_runs →
            Rests self.old self.new r.bits r.at_rest step_runs) }
        ensures may { OnOk result (MayRun self.old 1) }
        ensures err { OnErr result (LacksBusTurn self.old 1) }
        ensures kept { OnErr result (self.new ≡ self.old) }
    {
        if self.lacks_bus_turn(1) {
            return Err(TurnsUsed);
        }
        let (before, noted) = (self.run.bits(), !self.is_endless());
        let at_rest = self.run.rest_turn(MOST_BITS_BY_BYTES);
        let bits = (self.run.bits() - before) as u32;
        note_bits(&mut self.turns, noted, bits);
        Ok(RestOutcome { bits, at_rest })
    }
}
