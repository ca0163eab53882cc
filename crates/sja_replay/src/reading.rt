//! Bits of a frame that several nodes receive, having read just the same: one reader takes each level for all of them.

ghost use Rattle.std.specs.Prelude.{◌≡◌, ◌<◌, ◌+◌, ◌^◌, true};
ghost use Rattle.can_node.specs.Together.{reader_of};

use super::replay::{Replay, is_same};
use can_bits::Shift;
use can_levels::Level;
use can_node_rules::Counters;
use sja_journal::Entry;

impl<'a> Replay<'a> {
    ghost use Rattle.can_node.specs.Stands.{ShowsCounters};
    ghost use Rattle.sja_replay.specs.Reading.{Receives, Hears, HearsOn, reading};

    /// The reader of the frame that is on the bus, or came last.
    pub fn reader(&self) -> Shift
        ensures { result ≡ reader_of self.now.node }
    {
        self.node.reader()
    }

    /// The error counters that the node shows.
    pub fn counters(&self) -> Counters
        ensures { ShowsCounters self.now.node result }
    {
        self.node.counters()
    }

    /// Whether the node receives the stuffed part of a frame, drives recessive, and has read just what this reader has,
    /// and no abort came right before the next bit.
    pub fn has_read_as(&self, reader: &Shift) -> bool
        ensures receives { result ≡ true → Receives self.now }
        ensures same { result ≡ true → reader_of self.now.node ≡ reader.now }
    {
        !self.aborted && self.node.has_read_as(reader)
    }

    /// Whether a bit comes next in which the node drove recessive and saw this level.
    #[inline(always)]
    pub fn hears(&self, level: Level) -> bool
        ensures { result ≡ true → Hears self.now level }
    {
        if self.bits == u32::MAX {
            return false;
        }
        match &self.ahead {
            Some(Entry::Bit(Level::Recessive, seen)) => is_same(*seen, level),
            _ => false,
        }
    }

    /// Goes on past that bit, but for the reader of the node, which is to go on to where another one is then.
    #[inline(always)]
    pub fn hear(&mut self)
        requires { self.old.bits + 1 < 2 ^ 32 }
        ensures { HearsOn self.old self.new }
    {
        self.bits += 1;
        self.look_on();
    }

    /// Goes on to where this reader is, which took the levels of the bits that were passed so.
    #[inline(always)]
    pub fn catch_up(&mut self, reader: &Shift)
        requires { Receives self.old }
        ensures { self.new ≡ reading reader.now self.old }
    {
        self.node.follow(reader);
    }
}
