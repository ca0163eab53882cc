//! A plan of fewer bits.

use super::plan::Plan;

impl Plan {
    ghost use Rattle.std.specs.Prelude.{◌≡◌, ◌<◌};
    ghost use Rattle.sja_plan.specs.Shorter.{ended_after};

    /// Has the run end after this bit, counted from 0. All else stays as it is.
    pub fn end_after(&mut self, bit: u32)
        requires { bit < self.old.bits }
        ensures { self.new ≡ ended_after self.old bit }
    {
        if bit < self.bits {
            self.bits = bit + 1;
        }
    }
}
