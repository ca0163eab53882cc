//! [`Probe`]: a node that a wave shows, gone over bit by bit.

use super::cursor::Cursor;
use super::meter::Meter;
use sja_log::NodeRun;

/// A node that a wave shows, gone over bit by bit: what its journal says, and what its bits brought.
#[derive(Debug, Drop)]
pub(crate) struct Probe<'a> {
    pub(crate) cursor: Cursor<'a>,
    pub(crate) meter: Meter<'a>,
}

impl<'a> Probe<'a> {
    ghost use Rattle.std.specs.Prelude.{◌<◌, ◌≤◌};
    ghost use Rattle.text_wave.specs.Inside.Meters.{IsReading};
    ghost use Rattle.text_wave.specs.Inside.WaveRest.{ProbeRests, ProbeRested};
    ghost use Rattle.text_wave.specs.Inside.Probes.{Begins, GoesOn, Finishes};

    /// Before the first bit.
    pub(crate) fn of(node: &'a NodeRun) -> Probe<'a>
        ensures { Begins node.now result }
    {
        Probe {
            cursor: Cursor::of(node.journal()),
            meter: Meter::of(node.journal()),
        }
    }

    /// Goes on past the next bit.
    pub(crate) fn advance(&mut self)
        ensures { GoesOn self.old self.new }
    {
        self.cursor.advance();
        self.meter.advance();
    }

    /// For how many of the next bits, at most so many, nothing of the node changes. It may be for more of them.
    pub(crate) fn rest_for(&self, most: u32) -> u32
        ensures most { result ≤ most }
        ensures rests { 0 < result → ProbeRests result self.now }
    {
        let count = self.cursor.rest_for(most);
        if count == 0 {
            return 0;
        }
        self.meter.rest_for(count)
    }

    /// Goes on past so many of these bits, one at least.
    pub(crate) fn rest(&mut self, count: u32)
        requires { ProbeRests count self.old }
        ensures { ProbeRested count self.old self.new }
    {
        self.cursor.rest(count);
        self.meter.rest(count);
    }

    /// Of the rest of its bits it's told what they brought.
    pub(crate) fn finish(&mut self)
        requires { IsReading self.old.meter }
        ensures { Finishes self.old self.new }
    {
        self.meter.finish();
    }
}
