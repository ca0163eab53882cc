//! A plan with one strike more, in place or in a copy.

ghost use Rattle.std.specs.Prelude.{◌≡◌, ◌<◌, ◌≤◌, length, map, IfOk, IfErr};
ghost use Rattle.sja_plan.specs.Plan.{times_in};
ghost use Rattle.sja_plan.specs.Struck.{struck_at};
ghost use Rattle.sja_plan.specs.declared.strike_refusal.StrikeRefusal.TheVariants.{Memory, StrikeCount};

use super::limits::most_strikes;
use super::plan::Plan;
use super::strike_refusal::StrikeRefusal;
use sja_steps::{Step, Strike};
use std::alloc::Global;

impl Plan {
    ghost use Rattle.std.specs.Prelude.{◌≡◌, ◌<◌, ◌≤◌, ◌⊎◌, ℕ, length, IfOk, IfErr, OnOk, OnErr};
    ghost use Rattle.sja_plan.specs.Plan.{PlanValue, times_in};
    ghost use Rattle.sja_plan.specs.Limits.{most_strikes};
    ghost use Rattle.sja_plan.specs.Struck.{struck_at, unstruck};
    ghost use Rattle.sja_plan.specs.declared.strike_refusal.StrikeRefusal.TheVariants.{Memory, StrikeCount};

    /// One strike more, behind the others: the node, counted from 0, is struck once, at this bit, counted from 0 (this
    /// project's own rule). All else stays as it is, and nothing but the list of strikes is touched.
    ///
    /// A node and a bit that several strikes name are struck once: where the plan strikes this node in this bit, it
    /// strikes the same bits as before.
    ///
    /// Errors, the first that holds, and nothing changed: [`StrikeRefusal::StrikeCount`] where the plan's strikes
    /// strike as many bits already as they may in its version; [`StrikeRefusal::Memory`] where memory was refused.
    pub fn strike(&mut self, node: u8, bit: u64) -> Result<(), StrikeRefusal>
        requires { node < length self.old.nodes }
        ensures struck { OnOk result (self.new ≡ struck_at self.old node bit) }
        ensures left { OnOk result (times_in self.old.strikes < most_strikes self.old.version) }
        ensures err { IfErr result (λ fault.
            ((fault ≡ Memory) × (times_in self.old.strikes < most_strikes self.old.version))
            ⊎ ((fault ≡ StrikeCount) × (most_strikes self.old.version ≤ times_in self.old.strikes))) }
        ensures kept { OnErr result (self.new ≡ self.old) }
    {
        if self.strike_count() >= most_strikes(self.version) {
            return Err(StrikeRefusal::StrikeCount);
        }
        self.strikes.push(Strike {
            node,
            bit,
            every: 1,
            times: 1,
        })?;
        self.struck += 1;
        Ok(())
    }

    /// Takes the last strike back, where there is one: a plan that [`strike`](Plan::strike) gave one more is as it was.
    pub fn unstrike(&mut self)
        ensures last { self.new ≡ unstruck self.old }
        ensures back { (p : PlanValue) (node bit : ℕ) → self.old ≡ struck_at p node bit → self.new ≡ p }
    {
        if let Some(strike) = self.strikes.pop() {
            self.struck -= strike.times;
        }
    }

    /// This plan with one strike more, its last one, as [`strike`](Plan::strike) adds it. All else is the same.
    ///
    /// Errors: [`StrikeRefusal::StrikeCount`] exactly where the plan's strikes strike as many bits already as they may
    /// in its version, unless [`StrikeRefusal::Memory`] is told: memory was refused.
    pub fn with_strike(&self, alloc: Global, node: u8, bit: u32) -> Result<Plan, StrikeRefusal>
        requires { node < length self.now.nodes }
        ensures ok { IfOk result (λ plan. (plan ≡ struck_at self.now node bit)
            × (times_in self.now.strikes < most_strikes self.now.version)) }
        ensures err { IfErr result (λ fault. (fault ≡ Memory)
            ⊎ ((fault ≡ StrikeCount) × (most_strikes self.now.version ≤ times_in self.now.strikes))) }
    {
        let mut plan = self.copy(alloc)?;
        plan.strike(node, u64::from(bit))?;
        Ok(plan)
    }

    /// The same plan.
    fn copy(&self, alloc: Global) -> Result<Plan, StrikeRefusal>
        ensures ok { IfOk result (λ plan. plan ≡ self.now) }
        ensures err { IfErr result (λ fault. fault ≡ Memory) }
    {
        Ok(Plan {
            version: self.version,
            bits: self.bits,
            nodes: all_nodes(alloc, self.nodes.as_slice())?,
            turns: Vec::from_slice(alloc, self.turns.as_slice())?,
            strikes: Vec::from_slice(alloc, self.strikes.as_slice())?,
            struck: self.struck,
        })
    }

    /// How many bits the strikes strike, each counted as often as it strikes: at most 1,000, or 100,000
    /// in version 3.
    pub fn strike_count(&self) -> u32
        ensures value { result ≡ times_in self.now.strikes }
        ensures few { result ≤ most_strikes self.now.version }
        ensures most { result ≤ 100000 }
    {
        self.struck
    }
}

/// The same steps of each node.
fn all_nodes(alloc: Global, nodes: &[Vec<Step>]) -> Result<Vec<Vec<Step>>, StrikeRefusal>
    ensures ok { IfOk result (λ list. map (λ steps. steps.items) list.items ≡ map (λ steps. steps.items) nodes.now) }
    ensures err { IfErr result (λ fault. fault ≡ Memory) }
{
    let mut list = Vec::with_capacity(alloc, nodes.len())?;
    for steps in nodes {
        list.push_reserved(all_steps(alloc, steps.as_slice())?);
    }
    Ok(list)
}

/// The same steps.
fn all_steps(alloc: Global, steps: &[Step]) -> Result<Vec<Step>, StrikeRefusal>
    ensures ok { IfOk result (λ list. list.items ≡ steps.now) }
    ensures err { IfErr result (λ fault. fault ≡ Memory) }
{
    Ok(steps.iter().map(|step| step.copy()).collect(alloc)?)
}
