//! The turns of the bus: so many bits, or bits until every controller is at rest.

ghost use Rattle.std.specs.Prelude.{◌≡◌, min};

use super::serial_run::SerialRun;

impl SerialRun {
    ghost use Rattle.std.specs.Prelude.{◌≡◌, ◌+◌, ◌<◌, ◌≤◌, ◌⊎◌, List};
    ghost use Rattle.sja_bus_rules.specs.Lawful.{IsBusRun};
    ghost use Rattle.sja_driver.specs.TypedActs.{TypedAct};
    ghost use Rattle.sja_serial.specs.Bits.{TakesBit, TakesBits, AllRestIn, SomeWorks, TakesBusTurn, TakesRest};
    ghost use Rattle.sja_serial.specs.Inside.SerialProgress.{TakesAtOnce};
    ghost use Rattle.sja_serial.specs.Serial.{Setup, StandsAt, IsRunOf};

    /// `bus`: so many bits, or as many as are left. It says whether all were run.
    pub fn bus_turn(&mut self, count: u32) -> bool
        ghost setup: { Setup }
        requires run { IsRunOf setup self.old }
        ensures turn { (acts : List (List TypedAct)) → StandsAt setup self.old acts →
            TakesBusTurn setup acts self.old self.new count result }
        ensures stays { IsRunOf setup self.new }
    {
        let mut run = self.run_busy_bits(count);
        while run < count {
            if self.bits_left() == 0 {
                return false;
            }
            run += self.run_resting_bits(count - run);
            if run < count {
                run += self.run_busy_bits(count - run);
            }
        }
        true
    }

    /// `rest`: bits until every controller is at rest: in reset, or idle with no request; at most so many, and as many
    /// as are left. It says whether they came to rest.
    pub fn rest_turn(&mut self, most: u32) -> bool
        ghost setup: { Setup }
        requires run { IsRunOf setup self.old }
        ensures turn { (acts : List (List TypedAct)) → StandsAt setup self.old acts →
            TakesRest setup acts self.old self.new most result }
        ensures stays { IsRunOf setup self.new }
    {
        self.run_busy_bits(most);
        self.bus.at_rest()
    }

    /// Bits as long as some node works, at most so many and as many as are left. It says how many. No item is taken in
    /// them, and nothing stops them.
    fn run_busy_bits(&mut self, count: u32) -> u32
        ghost setup: { Setup }
        requires run { IsRunOf setup self.old }
        ensures most { result ≤ count }
        ensures bits { (acts : List (List TypedAct)) → StandsAt setup self.old acts →
            TakesBits setup acts (SomeWorks setup) self.old result self.new }
        ensures whole { (result ≡ count) ⊎ (setup.bits ≤ self.new.bits) ⊎ AllRestIn setup self.new }
    {
        let most = at_most(count, self.bits_left());
        match self
            .bus
            .bits(self.links.as_mut_slice(), &mut self.board, most, true)
        {
            Ok(many) => {
                self.bits += many as u64;
                many
            }
            Err(_) => unreachable!(),
        }
    }

    /// The next bits, at most so many: as many as can be run at once, or one where none can. It says how many.
    fn run_resting_bits(&mut self, count: u32) -> u32
        ghost setup: { Setup }
        requires run { IsRunOf setup self.old }
        requires left { self.old.bits < setup.bits }
        requires lawful { IsBusRun self.old.bus.script self.old.bus.run self.old.bus.journals }
        requires some { 1 ≤ count }
        ensures some { 1 ≤ result }
        ensures most { result ≤ count }
        ensures bits { (acts : List (List TypedAct)) → StandsAt setup self.old acts →
            TakesBits setup acts (λ r. Unit {0}) self.old result self.new }
    {
        let bits = self.run_idle_bits(count);
        if bits == 0 {
            self.run_one_bit();
            return 1;
        }
        bits
    }

    /// Up to so many of the next bits at once, as far as every node is at rest in them, nothing is to be told and no
    /// strike falls. It says how many.
    fn run_idle_bits(&mut self, count: u32) -> u32
        ghost setup: { Setup }
        requires run { IsRunOf setup self.old }
        requires left { self.old.bits < setup.bits }
        requires lawful { IsBusRun self.old.bus.script self.old.bus.run self.old.bus.journals }
        ensures { (acts : List (List TypedAct)) → StandsAt setup self.old acts →
            TakesAtOnce setup acts self.old self.new count result }
    {
        match self
            .bus
            .quiet_bits(self.links.as_mut_slice(), &self.board, count)
        {
            Ok(bits) => {
                self.bits += bits as u64;
                bits
            }
            Err(_) => unreachable!(),
        }
    }

    /// One bit of the bus. No item is taken, since all that the drivers gave was taken before. Nothing stops it. Each
    /// port is told its turn or passed over.
    pub(crate) fn run_one_bit(&mut self)
        ghost setup: { Setup }
        requires run { IsRunOf setup self.old }
        requires left { self.old.bits < setup.bits }
        requires lawful { IsBusRun self.old.bus.script self.old.bus.run self.old.bus.journals }
        ensures { (acts : List (List TypedAct)) → StandsAt setup self.old acts →
            TakesBit setup acts self.old self.new }
    {
        match self.bus.bit(self.links.as_mut_slice(), &mut self.board) {
            Ok(()) => self.bits += 1,
            Err(_) => unreachable!(),
        }
    }

    /// How many bits are left. What holds of every bus is said beside it: by that nothing stops a bit.
    pub fn bits_left(&self) -> u64
        ghost setup: { Setup }
        requires { IsRunOf setup self.now }
        ensures left { self.now.bits + result ≡ setup.bits }
        ensures lawful { IsBusRun self.now.bus.script self.now.bus.run self.now.bus.journals }
    {
        if self.bus.bits_run() != self.bits {
            unreachable!()
        }
        self.bus.bits_left()
    }
}

/// So many, or as many as are left.
pub(crate) fn at_most(count: u32, left: u64) -> u32
    ensures { result ≡ min count left }
{
    if left < (count as u64) {
        left as u32
    } else {
        count
    }
}
