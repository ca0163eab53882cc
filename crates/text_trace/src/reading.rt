//! A node that receives a frame, where another reader takes the levels for it.

ghost use Rattle.std.specs.Prelude.{◌≡◌, ◌<◌, ◌+◌, ◌^◌, ◌∷◌, [], true};
ghost use Rattle.can_levels.specs.BusLevel.{wired};
ghost use Rattle.sja_replay.specs.Reading.{Receives};
ghost use Rattle.text_trace.specs.Telling.{IsUnderway};
ghost use Rattle.text_trace.specs.Inside.Reading.{Stands, IsBehind, OtherPasses, MayHear, HearsOne, PassesFrom};
ghost use Rattle.text_trace.specs.Inside.Reading.{other_driven};

use super::counters::are_same;
use super::hand::{counters_of, driven_of};
use super::node_trace::NodeTrace;
use super::node_traces::with_node;
use can_bits::Shift;
use can_levels::Level;

impl<'a> NodeTrace<'a> {
    /// Marks the node where this reader is to take the levels of its frame for it.
    pub(crate) fn mark(&mut self, reader: &Shift)
        requires { IsUnderway self.old.bits }
        ensures { Stands reader.now self.new self.old }
    {
        self.reads = self.may_read(reader);
    }

    /// Whether the node receives a frame, has read just what this reader has, and shows the error counters that the
    /// bits before left.
    fn may_read(&self, reader: &Shift) -> bool
        requires { IsUnderway self.now.bits }
        ensures { result ≡ true → IsBehind reader.now self.now self.now }
    {
        if self.bits.over || !self.bits.replay.has_read_as(reader) {
            return false;
        }
        let left = counters_of(&self.short, self.bits.bit());
        are_same(self.bits.replay.counters(), left)
    }

    /// Goes on past the next bit, if the node isn't behind a reader. Answers the level on a bus of this level where the
    /// node drives its bit too: behind a reader it drives recessive.
    #[inline(always)]
    #[tactic(auto, using(crate::proofs::SoFar::InTurn::drives_nothing))]
    pub(crate) fn pass_other(&mut self, bus: Level) -> Level
        ensures passes { OtherPasses self.old self.new }
        ensures driven { result ≡ wired (bus ∷ other_driven self.new ∷ []) }
    {
        if self.reads {
            return bus;
        }
        self.pass_on();
        with_node(bus, driven_of(&self.short, self.bits.bit()))
    }

    /// Whether the node may stay behind a reader that takes this level of this bit, or isn't behind one and nothing was
    /// told of the bit.
    #[inline(always)]
    pub(crate) fn hears(&self, bus: Level, bit: u32) -> bool
        ensures { result ≡ true → MayHear bus bit self.now }
    {
        if !self.reads {
            return self.short.is_some();
        }
        self.steps.is_quiet(bit) && self.bits.replay.hears(bus)
    }

    /// Goes on past that bit, if the node is behind a reader.
    #[inline(always)]
    pub(crate) fn hear(&mut self)
        requires { self.old.reads ≡ true → self.old.bits.replay.bits + 1 < 2 ^ 32 }
        ensures { HearsOne self.old self.new }
    {
        if self.reads {
            self.bits.replay.hear();
        }
    }

    /// Goes on to where this reader is and past the next bit, if the node is behind the reader.
    #[inline(always)]
    pub(crate) fn pass_from(&mut self, reader: &Shift)
        requires { self.old.reads ≡ true → Receives self.old.bits.replay }
        ensures { PassesFrom reader.now self.old self.new }
    {
        if self.reads {
            self.bits.replay.catch_up(reader);
            self.pass_on();
        }
    }
}
