//! Bits of the bus up to the first in which a port is told its turn.

use super::bus_turns::at_most;
use super::serial_run::SerialRun;

impl SerialRun {
    ghost use Rattle.std.specs.Prelude.{◌≡◌, ◌≢◌, ◌+◌, ◌<◌, ◌≤◌, ℕ, false, List};
    ghost use Rattle.sja_steps.specs.Striking.{Strikes};
    ghost use Rattle.sja_bus_rules.specs.Lawful.{IsBusRun};
    ghost use Rattle.sja_driver.specs.TypedActs.{TypedAct};
    ghost use Rattle.sja_serial.specs.Serial.{Setup, StandsAt, IsRunOf};
    ghost use Rattle.sja_bus.specs.Boards.{HasOrders};
    ghost use Rattle.sja_bus.specs.UntilTold.{IsCalm, RunsNone};
    ghost use Rattle.sja_serial.specs.UntilTold.{EndsUntilTold, TakesUntilTold};

    /// The next bits, at most so many and as many as are left, up to the first in which a port is told its turn, or to
    /// the last one before a struck one; a struck bit is one alone, and so is each before which something is untold, a
    /// port wants an abort, or a journal has no room that isn't reserved. In none of them but the last a port is told
    /// more than what stood before the bit, a message is judged, or a node goes bus-off, and none of several is struck.
    /// It says how many: at least one, where one is asked for and left.
    pub fn bits_until_told(&mut self, count: u32) -> u32
        ghost setup: { Setup }
        requires run { IsRunOf setup self.old }
        ensures most { result ≤ count }
        ensures some { 1 ≤ count → self.old.bits < setup.bits → 1 ≤ result }
        ensures unstruck { 2 ≤ result → (i node : ℕ) → i < result → node < 8 →
            Strikes self.old.bus.script (self.old.bus.run + i) node → ⊥ }
        ensures calm { 2 ≤ result → IsCalm (HasOrders self.old.ports) self.old.bus }
        ensures bits { (acts : List (List TypedAct)) → StandsAt setup self.old acts →
            TakesUntilTold setup acts self.old result self.new }
        ensures longest { result ≢ 0 → EndsUntilTold count self.old result self.new }
        ensures stays { IsRunOf setup self.new }
    {
        let most = at_most(count, self.bits_left());
        if most == 0 {
            return 0;
        }
        self.run_some_bits(most)
    }

    /// The same, of so many that are left, one at least: one alone, where something stands in the way of more.
    fn run_some_bits(&mut self, count: u32) -> u32
        ghost setup: { Setup }
        requires run { IsRunOf setup self.old }
        requires some { 1 ≤ count }
        requires left { self.old.bits + count ≤ setup.bits }
        requires lawful { IsBusRun self.old.bus.script self.old.bus.run self.old.bus.journals }
        ensures most { result ≤ count }
        ensures some { 1 ≤ result }
        ensures unstruck { 2 ≤ result → (i node : ℕ) → i < result → node < 8 →
            Strikes self.old.bus.script (self.old.bus.run + i) node → ⊥ }
        ensures calm { 2 ≤ result → IsCalm (HasOrders self.old.ports) self.old.bus }
        ensures bits { (acts : List (List TypedAct)) → StandsAt setup self.old acts →
            TakesUntilTold setup acts self.old result self.new }
        ensures longest { EndsUntilTold count self.old result self.new }
        ensures stays { IsRunOf setup self.new }
    {
        let bits = self.run_untold_bits(count);
        if bits == 0 {
            self.run_one_bit();
            return 1;
        }
        bits
    }

    /// The same, as far as no strike falls, no port wants an abort and nothing is untold.
    fn run_untold_bits(&mut self, count: u32) -> u32
        ghost setup: { Setup }
        requires run { IsRunOf setup self.old }
        requires left { self.old.bits + count ≤ setup.bits }
        requires lawful { IsBusRun self.old.bus.script self.old.bus.run self.old.bus.journals }
        ensures most { result ≤ count }
        ensures unstruck { (i node : ℕ) → i < result → node < 8 →
            Strikes self.old.bus.script (self.old.bus.run + i) node → ⊥ }
        ensures bits { (acts : List (List TypedAct)) → StandsAt setup self.old acts →
            TakesUntilTold setup acts self.old result self.new }
        ensures longest { result ≢ 0 → EndsUntilTold count self.old result self.new }
        ensures none { result ≡ 0 → RunsNone (HasOrders self.old.ports) false count self.old.bus }
        ensures calm { result ≢ 0 → IsCalm (HasOrders self.old.ports) self.old.bus }
    {
        match self
            .bus
            .bits_until_told(self.links.as_mut_slice(), &mut self.board, count, false)
        {
            Ok(bits) => {
                self.bits += bits as u64;
                bits
            }
            Err(_) => unreachable!(),
        }
    }
}
