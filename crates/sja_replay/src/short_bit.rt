//! [`ShortBit`]: what a bit brought that told nothing.

use super::replay::is_same;
use can_levels::{Level, Segment};
use can_node_rules::{Counters, FlagKind, Phase};

/// What one bit of the bus brought to a node, where it told nothing and the node went on as it was.
///
/// These are the levels, and what the node showed before the bit. Phase and error counters are after it what they were
/// before it.
#[derive(Clone, Copy, Debug, PartialEq, Eq)]
pub struct ShortBit {
    /// The level that the node drove in it.
    pub driven: Level,
    /// The level that it saw.
    pub seen: Level,
    /// Where the node is with it, and with the next one.
    pub phase: Phase,
    /// The segment that it belongs to, in a frame from its second bit on.
    pub segment: Option<Segment>,
    /// Whether the node is transmitter of the frame that is on the bus, or was of the one that came last.
    pub transmits: bool,
    /// The error counters, before it and after it.
    pub counters: Counters,
    /// The flag that is due or under way; outside flags the one that came last.
    pub flag: FlagKind,
}

impl ShortBit {
    ghost use Rattle.std.specs.Prelude.{◌≡◌, false};
    ghost use Rattle.sja_replay.specs.Short.{IsNoStart};

    /// Whether the bus was idle before the bit and a level of it is dominant: a frame begins with such a bit, and the
    /// bit isn't told in short.
    pub fn may_start(&self) -> bool
        ensures none { result ≡ false → IsNoStart self.now }
        ensures starts { IsNoStart self.now → result ≡ false }
    {
        match self.phase {
            Phase::Idle => {
                !is_same(self.driven, Level::Recessive) || !is_same(self.seen, Level::Recessive)
            }
            _ => false,
        }
    }
}
