//! [`NodeBits`]: the bits of a node, one after another.

use sja_journal::Journal;
use sja_replay::{BitEvent, Replay, ShortBit};

/// The bits of a node, of which one is at hand: how far its journal was gone over, and what the bit gone over last
/// brought. It keeps one bit, and no list.
#[derive(Debug, Drop)]
pub struct NodeBits<'a> {
    pub(crate) replay: Replay<'a>,
    /// Whether no bit of the journal is left.
    pub(crate) over: bool,
    /// The bit at hand.
    pub(crate) bit: Option<BitEvent>,
}

impl<'a> NodeBits<'a> {
    ghost use Rattle.std.specs.Prelude.{◌≡◌, ◌<◌, ◌≤◌, [], Some, None, IfSome};
    ghost use Rattle.text_trace.specs.Telling.{HaveCome, TellsOn, TellsAll, IsUnderway, MayRest, at_hand};
    ghost use Rattle.text_trace.specs.Hands.{HandGoesOn, RestsOn};

    /// Before the first bit.
    pub fn of(journal: &'a Journal) -> NodeBits<'a>
        ensures { HaveCome journal.now.entries 0 result [] }
    {
        NodeBits {
            replay: Replay::of(journal),
            over: false,
            bit: None,
        }
    }

    /// What the bit at hand brought; none before the first bit, and where the journal has no such bit.
    pub fn bit(&self) -> &Option<BitEvent>
        ensures { result.now ≡ at_hand self.now }
    {
        &self.bit
    }

    /// Goes on past the next bit, if there is one.
    pub fn go_on(&mut self)
        ensures { TellsOn self.old self.new }
    {
        if self.over {
            self.bit = None;
            return;
        }
        match self.replay.next() {
            Some(bit) => self.bit = Some(bit),
            None => {
                self.bit = None;
                self.over = true;
            }
        }
    }

    /// Goes on past the next bit, where it tells nothing, and gives in short what it brought; the bit at hand isn't it
    /// then. Else nothing changes.
    #[inline(always)]
    pub fn pass(&mut self) -> Option<ShortBit>
        ensures passed { IfSome result (λ q. HandGoesOn self.old self.new (Some q)) }
        ensures none { result ≡ None → self.new ≡ self.old }
    {
        if self.over {
            return None;
        }
        self.replay.pass()
    }

    /// For how many of the next bits, at most so many, the node stays at rest. It may be for more of them.
    pub fn rest_for(&self, most: u32) -> u32
        ensures most { result ≤ most }
        ensures rests { 0 < result → MayRest result self.now }
    {
        if self.over {
            return 0;
        }
        self.replay.rest_for(most)
    }

    /// Goes on past so many of these bits, of which nothing is told, and gives in short what each of them brought. None
    /// is at hand then.
    pub fn rest(&mut self, count: u32) -> ShortBit
        requires { MayRest count self.old }
        ensures { RestsOn count result self.old self.new }
    {
        self.bit = None;
        self.replay.rest(count)
    }

    /// Goes on to the end of the journal.
    pub fn finish(&mut self)
        requires { IsUnderway self.old }
        ensures { TellsAll self.old self.new }
    {
        while !self.over {
            self.go_on();
        }
    }
}
