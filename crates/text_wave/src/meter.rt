//! [`Meter`]: the numbers of a node, read bit by bit.

use super::gauges::Gauges;
use can_node_rules::Phase;
use sja_journal::Journal;
use sja_replay::{Replay, ShortBit};

/// The numbers of a node, read bit by bit from what its bits brought: what they show in this bit and showed in the one
/// before, and what they show after it.
#[derive(Debug, Drop)]
pub(crate) struct Meter<'a> {
    pub(crate) replay: Replay<'a>,
    /// Whether no bit of the journal is left.
    pub(crate) over: bool,
    pub(crate) showed: Gauges,
    pub(crate) shows: Gauges,
    pub(crate) after: Gauges,
}

impl<'a> Meter<'a> {
    ghost use Rattle.std.specs.Prelude.{◌≡◌, ◌<◌, ◌≤◌, true, [], Some, List};
    ghost use Rattle.sja_journal.specs.declared.entry.Entry.{Entry};
    ghost use Rattle.sja_replay.specs.declared.replay.Replay.{Replay as Replaying};
    ghost use Rattle.sja_replay.specs.Short.{PassesBit};
    ghost use Rattle.text_wave.specs.Inside.Meters.{gauges_of, gauges_by, HasRead, IsReading, ReadsOn, ReadsAll};
    ghost use Rattle.sja_replay.specs.ReplayRest.{RestsFor};
    ghost use Rattle.text_wave.specs.Inside.WaveRest.{MeterRests, ShowsRest, MeterRested};

    /// Before the first bit.
    pub(crate) fn of(journal: &'a Journal) -> Meter<'a>
        ensures { HasRead journal.now.entries 0 result [] }
    {
        Meter {
            replay: Replay::of(journal),
            over: false,
            showed: Gauges::new(),
            shows: Gauges::new(),
            after: Gauges::new(),
        }
    }

    /// Goes on past the next bit. Where there is none, the numbers keep what they showed after the last one.
    pub(crate) fn advance(&mut self)
        ensures { ReadsOn self.old self.new }
    {
        self.showed = self.shows;
        if self.over {
            self.shows = self.after;
            return;
        }
        if let Some(bit) = self.replay.pass() {
            self.shows = Gauges::by(bit.counters, bit.phase, bit.flag);
            self.after = self.gauges_after(&bit);
            return;
        }
        match self.replay.next() {
            Some(bit) => {
                self.shows = Gauges::of(&bit.before);
                self.after = Gauges::of(&bit.after);
            }
            None => {
                self.shows = self.after;
                self.over = true;
            }
        }
    }

    /// What the numbers show after this bit, which they show and past which the replay went in short: the same, but
    /// that another flag may be under way then.
    fn gauges_after(&self, bit: &ShortBit) -> Gauges
        requires { self.now.shows ≡ gauges_by bit.now.counters bit.now.phase bit.now.flag }
        ensures { (old : Replaying) (before : List Entry) (p : PassesBit old self.now.replay before bit.now)
            → result ≡ gauges_of (Some p.happened.after) }
    {
        match bit.phase {
            Phase::Flag => Gauges::by(bit.counters, bit.phase, self.replay.rest_bit().flag),
            _ => self.shows,
        }
    }

    /// For how many of the next bits, at most so many, the node stays at rest and its numbers as they are. It may be
    /// for more of them.
    pub(crate) fn rest_for(&self, most: u32) -> u32
        ensures most { result ≤ most }
        ensures rests { 0 < result → MeterRests result self.now }
    {
        if self.over {
            return 0;
        }
        let count = self.replay.rest_for(most);
        if count == 0 || !self.shows_rest() {
            return 0;
        }
        count
    }

    /// Whether the numbers are those of the node in the next bit.
    fn shows_rest(&self) -> bool
        ensures { result ≡ true → ShowsRest self.now }
    {
        let bit = self.replay.rest_bit();
        self.shows.is(Gauges::by(bit.counters, bit.phase, bit.flag))
    }

    /// Goes on past so many of these bits, one at least.
    pub(crate) fn rest(&mut self, count: u32)
        requires { RestsFor self.old.replay count }
        ensures { MeterRested count self.old self.new }
    {
        self.replay.rest(count);
        self.showed = self.shows;
        self.after = self.shows;
    }

    /// Goes on to the end of the journal.
    pub(crate) fn finish(&mut self)
        requires { IsReading self.old }
        ensures { ReadsAll self.old self.new }
    {
        while !self.over {
            self.advance();
        }
    }
}
