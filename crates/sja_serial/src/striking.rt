//! A strike more, in a bit that hasn't run.

use super::serial_run::SerialRun;
use can_frame::OutOfMemory;
use sja_steps::Strike;

impl SerialRun {
    ghost use Rattle.std.specs.Prelude.{◌≡◌, ◌≤◌, List, OnOk, OnErr};
    ghost use Rattle.sja_driver.specs.TypedActs.{TypedAct};
    ghost use Rattle.sja_driver.specs.StepRuns.{StepRun};
    ghost use Rattle.sja_serial.specs.Serial.{Setup, StandsAt, StandsBy};
    ghost use Rattle.sja_serial.specs.Striking.{struck_run, struck_setup};

    /// One strike more, whose bits haven't run: a run stands at the same acts as one that was made with this strike
    /// too. Nothing else changes, and no bit is run.
    ///
    /// Error: [`OutOfMemory`] where memory was refused; nothing changed.
    #[inline(always)]
    pub fn strike(&mut self, strike: Strike) -> Result<(), OutOfMemory>
        requires later { self.old.bus.run ≤ strike.bit }
        ensures struck { OnOk result (self.new ≡ struck_run self.old strike) }
        ensures stands { OnOk result ((setup : Setup) (acts : List (List TypedAct)) →
            StandsAt setup self.old acts → StandsAt (struck_setup setup strike) self.new acts) }
        ensures by { OnOk result ((setup : Setup) (step_runs : List (List StepRun)) →
            StandsBy setup self.old step_runs → StandsBy (struck_setup setup strike) self.new step_runs) }
        ensures kept { OnErr result (self.new ≡ self.old) }
    {
        self.bus.strike(strike)
    }
}
