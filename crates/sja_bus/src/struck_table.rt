//! Whom strikes hit in each bit of a run, one byte a bit.

ghost use Rattle.std.specs.Prelude.{◌≡◌, ◌+◌, ◌*◌, ◌<◌, ◌≤◌, ◌⊎◌, ◌↔◌, ℕ, true, length, slice_index_or};
ghost use Rattle.sja_steps.specs.Striking.{Hits};
ghost use Rattle.sja_bus.specs.declared.struck_nodes.StruckNodes.{StruckNodes as Nodes};
ghost use Rattle.sja_bus.specs.Inside.StrikesByBit.{IsAmong, IsMarked};

use super::struck_nodes::StruckNodes;
use can_frame::OutOfMemory;
use sja_steps::{MOST_NODES, Strike};
use std::alloc::Global;
use std::marker::Model;

/// How many bits are looked at at once.
const PART: usize = 64;

/// Of each bit of a run the nodes that are struck, one byte a bit, so that no bit of the bus goes over all strikes.
/// While nobody is struck the bytes aren't written yet, for which there is room.
///
/// Contracts see it as the number of bits, and the nodes of those that are written.
#[derive(Debug, Drop)]
pub(crate) struct StruckTable {
    most: usize,
    /// Of no bit, or of all.
    bits: Vec<StruckNodes>,
}

impl Model for StruckTable {
    ghost use Rattle.std.specs.Prelude.{◌≡◌, ◌⊎◌, ◌≤◌, length, vec_capacity};
    ghost use Rattle.sja_bus.specs.Inside.StrikesByBit.{Table};

    ghost Value = { Table };

    ghost view = { λ t. record { bits = t.most; nodes = t.bits.items } };

    ghost invariant = { λ t. ((length t.bits.items ≡ 0) ⊎ (length t.bits.items ≡ t.most))
        × (t.most ≤ vec_capacity t.bits) };
}

impl StruckTable {
    ghost use Rattle.std.specs.Prelude.{◌≡◌, ◌+◌, ◌<◌, ◌≤◌, ◌⊎◌, ◌↔◌, ℕ, [], length, IfOk};
    ghost use Rattle.sja_bus.specs.Inside.StrikesByBit.{IsAmong, IsAmongAt, IsCalm, IsMarkedWith, IsStruckAt};

    /// One of so many bits, in which nobody is struck.
    ///
    /// Error: [`OutOfMemory`] where memory was refused.
    pub(crate) fn new(alloc: Global, bits: usize) -> Result<StruckTable, OutOfMemory>
        ensures { IfOk result (λ t. t ≡ record { bits = bits; nodes = [] }) }
    {
        Ok(StruckTable {
            most: bits,
            bits: Vec::with_capacity(alloc, bits)?,
        })
    }

    /// Marks the bits that one strike hits.
    #[inline(always)]
    pub(crate) fn strike(&mut self, strike: &Strike)
        ensures { IsMarkedWith strike.now self.old self.new }
    {
        // The room is reserved, so that no memory is asked for.
        let _ = self.bits.resize(self.most, StruckNodes::none());
        mark(self.bits.as_mut_slice(), strike);
    }

    /// The nodes that are struck in this bit.
    #[inline(always)]
    pub(crate) fn at(&self, bit: usize) -> StruckNodes
        ensures { (node : ℕ) → IsAmong node result ↔ IsAmongAt self.now bit node }
    {
        if bit < self.bits.len() {
            return self.bits[bit];
        }
        StruckNodes::none()
    }

    /// The first bit from this one on in which a node is struck, or the end of the run.
    pub(crate) fn next_struck(&self, from: usize) -> usize
        requires { from ≤ self.now.bits }
        ensures on { from ≤ result }
        ensures within { result ≤ self.now.bits }
        ensures calm { IsCalm from result self.now }
        ensures stop { (result ≡ self.now.bits) ⊎ IsStruckAt self.now result }
    {
        if self.bits.is_empty() {
            return self.most;
        }
        next_in(self.bits.as_slice(), from)
    }
}

/// The first of these bits from this one on in which a node is struck, or how many they are.
fn next_in(bits: &[StruckNodes], from: usize) -> usize
    requires { from ≤ length bits.now }
    ensures on { from ≤ result }
    ensures within { result ≤ length bits.now }
    ensures calm { (bit node : ℕ) (d : Nodes) → from ≤ bit → bit < result →
        IsAmong node (slice_index_or bits.now bit d) → ⊥ }
    ensures stop { (result ≡ length bits.now) ⊎ ((node : ℕ) × (node < 8)
        × ((d : Nodes) → IsAmong node (slice_index_or bits.now result d))) }
{
    let mut at = from;
    while at < bits.len() {
        if !bits[at].is_empty() {
            return at;
        }
        let part = at + PART.min(bits.len() - at);
        at = if are_calm(&bits[at..part]) {
            part
        } else {
            at + 1
        };
    }
    at
}

/// Whether no node is struck in any of these bits. It looks at all of them in each case, so that many are looked at in
/// one instruction.
#[inline(always)]
fn are_calm(struck: &[StruckNodes]) -> bool
    ensures { result ≡ true → (bit node : ℕ) (d : Nodes) → bit < length struck.now →
        IsAmong node (slice_index_or struck.now bit d) → ⊥ }
{
    let mut none = true;
    for k in 0..struck.len() {
        none = none & struck[k].is_empty();
    }
    none
}

/// Marks the bits that one strike hits.
#[inline(always)]
fn mark(bits: &mut [StruckNodes], strike: &Strike)
    ensures { IsMarked strike.now bits.old bits.new }
{
    if strike.node >= MOST_NODES {
        return;
    }
    let node = strike.node as usize;
    let first = strike.bit as usize;
    let every = strike.every as usize;
    for time in 0..times_within(strike, bits.len()) {
        bits[first + time * every].add(node);
    }
}

/// So many of the times of a strike, from the first on, hit all of the first bits that it hits.
#[inline(always)]
fn times_within(strike: &Strike, bits: usize) -> usize
    ensures within { (time : ℕ) → time < result → strike.now.bit + time * strike.now.every < bits }
    ensures all { (bit node : ℕ) → bit < bits →
        Hits strike.now bit node ↔ Hits (record strike.now { times = result }) bit node }
{
    let first = strike.bit as usize;
    let every = strike.every as usize;
    let times = strike.times as usize;
    if first >= bits || times == 0 {
        return 0;
    }
    if every == 0 {
        return 1;
    }
    times.min((bits - first - 1) / every + 1)
}
