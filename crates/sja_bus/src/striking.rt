//! A strike more, in a bit that hasn't run.

use super::bus::Bus;
use can_frame::OutOfMemory;
use sja_steps::Strike;

impl Bus {
    ghost use Rattle.std.specs.Prelude.{◌≡◌, ◌≤◌, ◌<◌, ◌↔◌, ◌++◌, ℕ, [], ◌∷◌, OnOk, OnErr};
    ghost use Rattle.sja_steps.specs.Striking.{Strikes};

    /// One strike more. None of the bits that it hits has run, so what holds of those that were run holds by the new
    /// script too.
    ///
    /// Error: [`OutOfMemory`] where memory was refused; nothing changed.
    #[inline(always)]
    pub fn strike(&mut self, strike: Strike) -> Result<(), OutOfMemory>
        requires later { self.old.run ≤ strike.bit }
        ensures struck { OnOk result (self.new
            ≡ record self.old { script = self.old.script ++ strike ∷ [] }) }
        ensures past { (bit node : ℕ) → bit < self.old.run →
            Strikes self.new.script bit node ↔ Strikes self.old.script bit node }
        ensures kept { OnErr result (self.new ≡ self.old) }
    {
        self.struck.strike(strike, self.run)
    }
}
