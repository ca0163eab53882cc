//! [`DriverBits`]: the bits of a node, of which its driver is told.

use can_node_rules::Counters;
use sja_log::NodeRun;
use text_trace::{NodeBits, counters_of};

/// The bits of a node, one after another, of which one is at hand.
#[derive(Debug, Drop)]
pub(crate) struct DriverBits<'a> {
    /// The error counters as the bits before the one at hand left them.
    pub(crate) left: Counters,
    /// The error counters before the bit at hand and after it, where it was passed in short.
    pub(crate) passed: Option<Counters>,
    /// Its bits, one at hand where it wasn't.
    pub(crate) bits: NodeBits<'a>,
}

impl<'a> DriverBits<'a> {
    ghost use Rattle.std.specs.Prelude.{◌≡◌, ◌<◌, ◌≤◌, []};
    ghost use Rattle.text_trace.specs.Telling.{IsUnderway};
    ghost use Rattle.text_candump.specs.Inside.CandumpProgress.{HasGone, GoesOn, GoesToEnd, MayStay, RestsBy, now_left};

    /// Before the first bit.
    pub(crate) fn of(node: &'a NodeRun) -> DriverBits<'a>
        ensures { HasGone node.now.journal 0 result [] }
    {
        DriverBits {
            left: counters_of(&None, &None),
            passed: None,
            bits: NodeBits::of(node.journal()),
        }
    }

    /// Goes on past the next bit, if there is one, in short where it tells nothing.
    pub(crate) fn pass_on(&mut self)
        ensures { GoesOn self.old self.new }
    {
        self.left = self.now_left();
        match self.bits.pass() {
            Some(short) => self.passed = Some(short.counters),
            None => {
                self.passed = None;
                self.bits.go_on();
            }
        }
    }

    /// The error counters as the bits so far left them.
    fn now_left(&self) -> Counters
        ensures { result ≡ now_left self.now }
    {
        match self.passed {
            Some(counters) => counters,
            None => counters_of(&None, self.bits.bit()),
        }
    }

    /// For how many of the next bits, at most so many, the node stays at rest and isn't bus-off. It may be for more of
    /// them.
    pub(crate) fn rest_for(&self, most: u32) -> u32
        ensures most { result ≤ most }
        ensures rests { 0 < result → MayStay result self.now }
    {
        if self.now_left().off {
            return 0;
        }
        self.bits.rest_for(most)
    }

    /// Goes on past so many of these bits.
    pub(crate) fn rest(&mut self, count: u32)
        requires { MayStay count self.old }
        ensures { RestsBy count self.old self.new }
    {
        let short = self.bits.rest(count);
        self.passed = Some(short.counters);
    }

    /// Goes on to the end of the journal.
    pub(crate) fn finish(&mut self)
        requires { IsUnderway self.old.bits }
        ensures { GoesToEnd self.old self.new }
    {
        self.bits.finish();
    }
}
