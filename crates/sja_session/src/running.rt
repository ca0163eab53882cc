//! The bits of a session.

use super::session::Session;
use super::turns::note_bits;
use super::turns_used::TurnsUsed;
use sja_plan::Turn;

impl Session {
    ghost use Rattle.std.specs.Prelude.{◌≡◌, List, IfOk, OnOk, OnErr};
    ghost use Rattle.sja_driver.specs.StepRuns.{StepRun};
    ghost use Rattle.sja_session.specs.Running.{RunsBits, MayRun, LacksBusTurn};
    ghost use Rattle.sja_session.specs.Sessions.{IsAt};

    /// Runs so many bits, or as many as are left, and says how many were run.
    ///
    /// Error: [`TurnsUsed`] where as many turns were taken as there is room for, the last one isn't of the bus, and a
    /// bit is to be run: some are asked for, and some are left. Nothing changed.
    pub fn bits(&mut self, count: u32) -> Result<u32, TurnsUsed>
        ensures bits { IfOk result (λ run. (step_runs : List (List StepRun)) → IsAt self.old step_runs →
            RunsBits self.old self.new count run step_runs) }
        ensures may { OnOk result (MayRun self.old count) }
        ensures err { OnErr result (LacksBusTurn self.old count) }
        ensures kept { OnErr result (self.new ≡ self.old) }
    {
        if self.lacks_bus_turn(count) {
            return Err(TurnsUsed);
        }
        let (before, noted) = (self.run.bits(), !self.is_endless());
        self.run.bus_turn(count);
        let run = (self.run.bits() - before) as u32;
        note_bits(&mut self.turns, noted, run);
        Ok(run)
    }
}

impl Session {
    ghost use Rattle.std.specs.Prelude.{◌≡◌, true, false};
    ghost use Rattle.sja_session.specs.Running.{MayRun, LacksBusTurn};

    /// Whether so many bits are refused: a bit is to be run, and no turn is left for it.
    pub(crate) fn lacks_bus_turn(&self, count: u32) -> bool
        ensures yes { result ≡ true → LacksBusTurn self.now count }
        ensures no { result ≡ false → MayRun self.now count }
    {
        let due = count >= 1 && self.run.bits() < self.bits;
        due && !self.has_turn(Turn::Bus(count))
    }
}
