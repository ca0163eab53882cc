//! [`NodeSteps`]: the steps of a node's driver, of which a trace tells bit by bit.

ghost use Rattle.std.specs.Prelude.{◌≡◌, true};
ghost use Rattle.text_trace.specs.Inside.StepOrder.{Ascends, ArePast, ArePast-prop, AscendIf, AscendIf-prop};
ghost use Rattle.text_trace.specs.Inside.StepOrder.{IsNext, IsNext-prop};

use super::due::Due;
use super::steps::put_due;
use can_frame::OutOfMemory;
use sja_steps::{Step, StepRecord};
use std::alloc::Global;

/// The steps of a node's driver and what they came to, with the place up to which they all came before the bit at hand.
#[derive(Debug, Drop)]
pub(crate) struct NodeSteps<'a> {
    pub(crate) steps: &'a [Step],
    pub(crate) done: &'a [StepRecord],
    /// Whether they are of a plan of version 3.
    pub(crate) by_bytes: bool,
    /// Whether no step that was done has fewer bits before it than one before it has.
    in_order: bool,
    /// The steps before the place have fewer bits before them than so many.
    past: u32,
    /// The place up to which they were gone over.
    place: usize,
    /// The step at that place has so many bits before it, or more.
    next: u64,
    ghost ascends: { AscendIf in_order done.now } by { AscendIf-prop in_order done.now },
    ghost are_past: { ArePast past place done.now } by { ArePast-prop past place done.now },
    ghost is_next: { IsNext next place done.now } by { IsNext-prop next place done.now },
}

impl<'a> NodeSteps<'a> {
    ghost use Rattle.std.specs.Prelude.{◌≡◌, ◌+◌, ◌<◌, ◌≤◌, ◌++◌, ℕ, [], true, false, string_bytes, OnOk};
    ghost use Rattle.text_trace.specs.TraceText.{steps_due};
    ghost use Rattle.text_trace.specs.TraceProgress.{HasSameSteps};

    /// Before the first bit.
    pub(crate) fn of(by_bytes: bool, steps: &'a [Step], done: &'a [StepRecord]) -> NodeSteps<'a>
        ensures by_bytes { result.by_bytes ≡ by_bytes }
        ensures steps { result.steps.now ≡ steps.now }
        ensures done { result.done.now ≡ done.now }
    {
        NodeSteps {
            steps,
            done,
            by_bytes,
            in_order: is_in_order(done),
            past: 0,
            place: 0,
            next: bits_at(done, 0),
        }
    }

    /// Goes on to this bit.
    #[inline(always)]
    #[tactic(auto, using(crate::proofs::DriverSteps::StepOrders::past_later))]
    pub(crate) fn go_to(&mut self, bit: u32)
        ensures { HasSameSteps self.old self.new }
    {
        if self.next < (bit as u64) && self.past <= bit {
            let place = place_past(self.done, self.place, bit);
            self.place = place;
            self.next = bits_at(self.done, place);
            self.past = bit;
        }
    }

    /// How many bits from this one on have no step right before them, at most so many. There may be more of them.
    pub(crate) fn quiet_from(&self, bit: u32, most: u32) -> u32
        ensures most { result ≤ most }
        ensures quiet { (i node : ℕ) → bit ≤ i → i < bit + result →
            steps_due false i node 1 self.now.steps.now self.now.done.now ≡ [] }
    {
        if !self.in_order {
            return 0;
        }
        let place = self.first_at(bit);
        if place >= self.done.len() {
            return most;
        }
        let least = self.done[place].bits.saturating_sub(bit as u64);
        (most as u64).min(least) as u32
    }

    /// The lines of the steps right before this bit.
    ///
    /// Of the bit at hand they are looked for from the place on that the steps have come to, and where the steps are in
    /// order no further than they go.
    pub(crate) fn put(
        &self,
        alloc: Global,
        text: &mut String,
        node: usize,
        bit: u32,
    ) -> Result<(), OutOfMemory>
        ensures { OnOk result (string_bytes text.new ≡ string_bytes text.old
            ++ steps_due false bit node 1 self.now.steps.now self.now.done.now) }
    {
        if self.is_quiet(bit) {
            return Ok(());
        }
        let due = Due { late: false, bit };
        let mut place = self.first_at(bit);
        while place < self.steps.len() && place < self.done.len() {
            let done = &self.done[place];
            if self.in_order && (bit as u64) < done.bits {
                return Ok(());
            }
            put_due(alloc, text, node, place + 1, &self.steps[place], done, due)?;
            place += 1;
        }
        Ok(())
    }

    /// Whether no step stands right before this bit. There may be none where it isn't said.
    pub(crate) fn is_quiet(&self, bit: u32) -> bool
        ensures { result ≡ true → (node : ℕ) → steps_due false bit node 1 self.now.steps.now self.now.done.now ≡ [] }
    {
        if !self.in_order || bit < self.past {
            return false;
        }
        (bit as u64) < self.next
    }

    /// A place before which no step stands right before this bit.
    #[tactic(auto, using(crate::proofs::DriverSteps::StepOrders::past_later))]
    fn first_at(&self, bit: u32) -> usize
        ensures { ArePast bit result self.now.done.now }
    {
        if self.past <= bit { self.place } else { 0 }
    }
}

/// Whether no step that was done has fewer bits before it than one before it has.
fn is_in_order(done: &[StepRecord]) -> bool
    ensures { result ≡ true → Ascends 0 done.now }
{
    let mut least = 0u64;
    for one in done {
        if one.bits < least {
            return false;
        }
        least = one.bits;
    }
    true
}

/// So many bits stand before the step at this place, or more, if there is one.
fn bits_at(done: &[StepRecord], place: usize) -> u64
    ensures { IsNext result place done.now }
{
    if place < done.len() {
        done[place].bits
    } else {
        u64::MAX
    }
}

/// The first place from this one on that has so many bits before it, or more.
fn place_past(done: &[StepRecord], from: usize, bits: u32) -> usize
    ensures { ArePast bits from done.now → ArePast bits result done.now }
{
    let mut place = from;
    while place < done.len() && done[place].bits < (bits as u64) {
        place += 1;
    }
    place
}
