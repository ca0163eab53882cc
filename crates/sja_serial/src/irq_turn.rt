//! The turn of the bus up to an interrupt.

use super::serial_run::SerialRun;

impl SerialRun {
    ghost use Rattle.std.specs.Prelude.{◌<◌, List};
    ghost use Rattle.sja_driver.specs.StepRuns.{StepRun};
    ghost use Rattle.sja_serial.specs.Inside.Rounds.{TakesIrq};
    ghost use Rattle.sja_serial.specs.Serial.{Setup, StandsBy, IsRunBy};

    /// `irq`: bits until the interrupt line of a node, counted from 0, is active, so many at most; none where it is
    /// already. It says whether that came, or so many were run, before the bits were spent.
    pub(crate) fn irq_turn(&mut self, node: u8, count: u32) -> bool
        ghost setup: { Setup }
        requires run { IsRunBy setup self.old }
        requires node { node < setup.nodes }
        ensures { (step_runs : List (List StepRun)) → StandsBy setup self.old step_runs →
            TakesIrq setup step_runs node count self.old self.new result }
    {
        for _ in 0..count {
            if self.irq(node) {
                return true;
            }
            if self.bits_left() == 0 {
                return false;
            }
            self.run_one_bit();
        }
        true
    }
}
