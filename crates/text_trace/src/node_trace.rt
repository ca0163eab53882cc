//! [`NodeTrace`]: a node of which a trace tells.

use super::counters::{are_same, counters_after};
use super::hand::{counters_of, keep_counters};
use super::node_bits::NodeBits;
use super::node_steps::NodeSteps;
use can_node_rules::Counters;
use sja_log::NodeRun;
use sja_replay::ShortBit;
use sja_steps::Step;

/// A node of which a trace tells, bit by bit: the steps of its driver and what they came to, and its bits.
#[derive(Debug, Drop)]
pub struct NodeTrace<'a> {
    pub(crate) steps: NodeSteps<'a>,
    /// The error counters as the bits before the one at hand left them.
    pub(crate) counters: Counters,
    /// The bit at hand in short, where it was passed so.
    pub short: Option<ShortBit>,
    /// Whether another reader takes the levels of the frame that it receives, behind which its node is.
    pub(crate) reads: bool,
    /// Its bits, one at hand where it isn't so.
    pub bits: NodeBits<'a>,
}

impl<'a> NodeTrace<'a> {
    ghost use Rattle.std.specs.Prelude.{◌≡◌, ◌<◌, ◌≤◌, true, []};
    ghost use Rattle.sja_replay.specs.ReplayRest.{RestsFor};
    ghost use Rattle.text_trace.specs.Telling.{IsUnderway};
    ghost use Rattle.text_trace.specs.TraceProgress.{HasTold, NodeTraceGoesOn, NodeTraceEnds};
    ghost use Rattle.text_trace.specs.Passing.{NodeTracePasses};
    ghost use Rattle.text_trace.specs.TraceRest.{BeginsAlike, NodeTraceRests, HasRested};

    /// Before the first bit of a node whose driver has these steps, in a plan of version 3 or of another one.
    pub fn of(by_bytes: bool, steps: &'a [Step], node: &'a NodeRun) -> NodeTrace<'a>
        ensures { HasTold by_bytes steps.now node.now 0 result
            (record { by_bytes = by_bytes; steps = steps.now; done = node.now.done; bits = [] }) }
    {
        NodeTrace {
            steps: NodeSteps::of(by_bytes, steps, node.done()),
            counters: counters_after(&None),
            short: None,
            reads: false,
            bits: NodeBits::of(node.journal()),
        }
    }

    /// Goes on past the next bit, if there is one.
    pub(crate) fn go_on(&mut self)
        ensures { NodeTraceGoesOn self.old self.new }
    {
        self.steps.go_to(self.bits.replay.bits());
        self.counters = counters_after(self.bits.bit());
        self.bits.go_on();
    }

    /// Goes on past the next bit, if there is one, in short where it tells nothing.
    #[inline(always)]
    pub(crate) fn pass_on(&mut self)
        ensures passes { NodeTracePasses self.old self.new }
        ensures reads { self.new.reads ≡ self.old.reads }
    {
        self.steps.go_to(self.bits.replay.bits());
        keep_counters(&mut self.counters, &self.short, self.bits.bit());
        self.short = self.bits.pass();
        if self.short.is_none() {
            self.bits.go_on();
        }
    }

    /// For how many bits from this one on, at most so many, the node stays at rest and nothing is said of it, where the
    /// bus is recessive in them. It may be for more of them.
    pub(crate) fn rest_for(&self, bit: u32, most: u32) -> u32
        ensures most { result ≤ most }
        ensures rests { 0 < result → NodeTraceRests bit result self.now }
    {
        if self.bits.over {
            return 0;
        }
        let rest = self.bits.replay.rest_for(most);
        if rest == 0 || !self.begins_alike() {
            return 0;
        }
        self.steps.quiet_from(bit, rest)
    }

    /// Whether the node shows the error counters that the bits before left.
    fn begins_alike(&self) -> bool
        ensures { result ≡ true → BeginsAlike self.now }
    {
        let left = counters_of(&self.short, self.bits.bit());
        are_same(self.bits.replay.rest_bit().counters, left)
    }

    /// Goes on past so many of these bits.
    pub(crate) fn rest(&mut self, count: u32)
        requires { RestsFor self.old.bits.replay count }
        ensures { HasRested count self.old self.new }
    {
        let short = self.bits.replay.rest(count);
        self.counters = short.counters;
        self.short = Some(short);
        self.steps.go_to(self.bits.replay.bits());
    }

    /// Goes on to the end of the journal.
    pub(crate) fn finish(&mut self)
        requires { IsUnderway self.old.bits }
        ensures { NodeTraceEnds self.old self.new }
    {
        self.bits.finish();
    }
}
