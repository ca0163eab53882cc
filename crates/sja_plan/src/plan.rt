//! Plans.

ghost use Rattle.std.specs.Prelude.{◌≡◌, ◌<◌, ◌≤◌, length, slice_index_or, [], All, IfOk};
ghost use Rattle.sja_plan.specs.Plan.{IsInLimits, NamesNode, IsStrikeOn, times_in, step_counts};
ghost use Rattle.sja_plan.specs.Limits.{most_bits, most_steps, most_turns, most_strikes};

use super::turn::Turn;
use can_frame::OutOfMemory;
use sja_steps::{Step, Strike};
use std::alloc::Global;
use std::marker::Model;

/// A plan of a run: what each driver does, in which turns, and which bits are struck.
///
/// | What | Limit in version 1 and 2 | in version 3 |
/// |---|---|---|
/// | bits of a run | 1 to 200,000 | 1 to 2,000,000 |
/// | nodes | 1 to 8 | 1 to 8 |
/// | steps of a node | at most 1,000 | at most 65,535 |
/// | turns | at most 10,000 | at most 200,000 |
/// | strikes, each counted as often as it strikes | at most 1,000 | at most 100,000 |
///
/// Each turn of a node and each strike names a node of the plan. Contracts see a plan as these five values.
#[derive(Drop)]
pub struct Plan {
    pub(crate) version: u8,
    pub(crate) bits: u32,
    pub(crate) nodes: Vec<Vec<Step>>,
    pub(crate) turns: Vec<Turn>,
    pub(crate) strikes: Vec<Strike>,
    /// How many bits the strikes strike, so that one more needs no look at the others.
    pub(crate) struck: u32,
}

impl Model for Plan {
    ghost use Rattle.std.specs.Prelude.{◌≡◌, map};
    ghost use Rattle.sja_plan.specs.Plan.{PlanValue, IsInLimits, times_in};

    ghost Value = { PlanValue };

    ghost view = { λ p. record {
      version = p.version;
      bits = p.bits;
      nodes = map (λ steps. steps.items) p.nodes.items;
      turns = p.turns.items;
      strikes = p.strikes.items;
    } };

    ghost invariant = { λ p. IsInLimits (record {
      version = p.version;
      bits = p.bits;
      nodes = map (λ steps. steps.items) p.nodes.items;
      turns = p.turns.items;
      strikes = p.strikes.items;
    }) × (p.struck ≡ times_in p.strikes.items) };
}

impl Plan {
    /// The version of the plan's rules, 1 to 3: 2 has self test, self reception and listen only beside all of 1, and 3
    /// is for drivers that know addresses and bytes alone.
    pub fn version(&self) -> u8
        ensures value { result ≡ self.now.version }
        ensures least { 1 ≤ result }
        ensures most { result ≤ 3 }
    {
        self.version
    }

    /// How many bits the run has at most: 1 to 200,000, or to 2,000,000 in version 3. A plan with bits is within all
    /// limits.
    pub fn bits(&self) -> u32
        ensures value { result ≡ self.now.bits }
        ensures some { 1 ≤ result }
        ensures few { result ≤ most_bits self.now.version }
        ensures most { result ≤ 2000000 }
        ensures limits { IsInLimits self.now }
    {
        self.bits
    }

    /// How many nodes there are: 1 to 8. A plan with nodes is within all limits.
    pub fn nodes(&self) -> usize
        ensures value { result ≡ length self.now.nodes }
        ensures some { 1 ≤ result }
        ensures few { result ≤ 8 }
        ensures limits { IsInLimits self.now }
    {
        self.nodes.len()
    }

    /// The steps of the driver of a node, counted from 0: at most 1,000, or 65,535 in version 3.
    pub fn steps(&self, node: usize) -> &[Step]
        requires { node < length self.now.nodes }
        ensures value { result.now ≡ slice_index_or self.now.nodes node [] }
        ensures few { length result.now ≤ most_steps self.now.version }
        ensures most { length result.now ≤ 65535 }
    {
        self.nodes[node].as_slice()
    }

    /// How many steps the driver of each node has, in order.
    ///
    /// Error: [`OutOfMemory`] where memory was refused.
    pub fn step_counts(&self, alloc: Global) -> Result<Vec<u64>, OutOfMemory>
        ensures count { IfOk result (λ counts. length counts.items ≡ length self.now.nodes) }
        ensures value { IfOk result (λ counts. counts.items ≡ step_counts self.now) }
    {
        let nodes = self.nodes();
        let mut counts = Vec::with_capacity(alloc, nodes)?;
        for node in 0..nodes {
            counts.push_reserved(self.steps(node).len() as u64);
        }
        Ok(counts)
    }

    /// The turns of a serial run: at most 10,000, or 200,000 in version 3. Each turn of a node names one that is there.
    pub fn turns(&self) -> &[Turn]
        ensures value { result.now ≡ self.now.turns }
        ensures few { length result.now ≤ most_turns self.now.version }
        ensures most { length result.now ≤ 200000 }
        ensures there { All (NamesNode (length self.now.nodes)) result.now }
    {
        self.turns.as_slice()
    }

    /// The strikes, which strike at most 1,000 bits, or 100,000 in version 3. Each is at a node that is there, and
    /// strikes one bit at least.
    pub fn strikes(&self) -> &[Strike]
        ensures value { result.now ≡ self.now.strikes }
        ensures few { times_in result.now ≤ most_strikes self.now.version }
        ensures most { times_in result.now ≤ 100000 }
        ensures there { All (IsStrikeOn (length self.now.nodes)) result.now }
    {
        self.strikes.as_slice()
    }

    /// Every plan is within the limits. It does nothing: a caller who needs a limit calls it for its contract.
    pub fn limits(&self)
        ensures { IsInLimits self.now }
    {
        let _ = &self.bits;
    }
}
