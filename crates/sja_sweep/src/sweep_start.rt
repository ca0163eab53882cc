//! [`SweepStart`]: the beginning of a sweep.

ghost use Rattle.std.specs.Prelude.{◌≡◌, ◌+◌, ◌*◌, ◌^◌, ◌<◌, ◌≤◌, true, false, length, IfOk, IfErr, OnOk};
ghost use Rattle.sja_plan.specs.Limits.{most_strikes};
ghost use Rattle.sja_plan.specs.Plan.{times_in};
ghost use Rattle.sja_sweep.specs.declared.sweep_fault.SweepFault.TheVariants.{NoNode, TooMany, StrikeCount};
ghost use Rattle.sja_sweep.specs.Errors.{IsRan, TrialRunValue};
ghost use Rattle.sja_sweep.specs.Targets.{strikes_a_run};
ghost use Rattle.sja_sweep.specs.Sweeps.{IsSweepFault, AreTooMany};
ghost use Rattle.sja_sweep.specs.Inside.Reaching.{trial_run_value, NamesNodeBelow, NamesNodePast};
ghost use Rattle.sja_sweep.specs.Inside.Tried.{IsBegun};

use super::limits::{MOST_RUNS, MOST_SWEPT_BITS};
use super::strike_range::asked_of;
use super::sweep_fault::SweepFault;
use super::sweeping::Sweeping;
use super::trial::Trial;
use super::trial_run::{TrialRun, run_plan};
use super::trials::{run_count, trials_of};
use sja_plan::{Plan, most_strikes};
use std::alloc::Global;

/// The beginning of a sweep: the run of the plan as it is, and what is to be tried.
#[derive(Drop)]
pub(crate) struct SweepStart {
    /// The run of the plan as it is.
    pub(crate) planned: TrialRun,
    /// What is to be tried.
    pub(crate) trials: Vec<Trial>,
}

/// Runs the plan as it is, and lists what is to be tried.
#[tactic(auto, using(crate::proofs::TriedRuns::RunFaults::planned_fails))]
pub(crate) fn begin(
    alloc: Global,
    plan: &Plan,
    sweeping: &Sweeping,
) -> Result<SweepStart, SweepFault>
    ensures ok { IfOk result (λ b. IsBegun plan.now sweeping.now (trial_run_value b.planned) b.trials.items) }
    ensures err { IfErr result (IsSweepFault plan.now sweeping.now) }
{
    check_node(sweeping, plan.nodes())?;
    let planned = run_plan(alloc, plan)?;
    match list_trials(alloc, plan, sweeping, planned.log.bits()) {
        Ok(trials) => Ok(SweepStart { planned, trials }),
        Err(fault) => Err(fault),
    }
}

/// Lists what is to be tried of a plan whose run as it is has so many bits.
fn list_trials(
    alloc: Global,
    plan: &Plan,
    sweeping: &Sweeping,
    bits: u32,
) -> Result<Vec<Trial>, SweepFault>
    requires { NamesNodeBelow sweeping.now (length plan.now.nodes) }
    ensures ok { IfOk result (λ trials. (planned : TrialRunValue) → IsRan plan.now planned → planned.log.bits ≡ bits →
        IsBegun plan.now sweeping.now planned trials.items) }
    ensures err { IfErr result (λ fault. (planned : TrialRunValue) → IsRan plan.now planned → planned.log.bits ≡ bits →
        IsSweepFault plan.now sweeping.now fault) }
{
    let asked = asked_of(sweeping, plan.nodes(), bits);
    let runs = run_count(sweeping, plan.nodes(), bits, asked);
    check_runs(sweeping, plan, runs)?;
    check_room(sweeping, plan, runs)?;
    let trials = trials_of(alloc, sweeping, plan.nodes(), bits, asked)?;
    Ok(trials)
}

/// Looks whether the node that a sweep names is there, of so many.
///
/// Error: [`SweepFault::NoNode`] where it isn't.
fn check_node(sweeping: &Sweeping, nodes: usize) -> Result<(), SweepFault>
    ensures ok { OnOk result (NamesNodeBelow sweeping.now nodes) }
    ensures err { IfErr result (λ f. (f ≡ NoNode) × NamesNodePast sweeping.now nodes) }
{
    match sweeping.node {
        Some(node) => {
            if node as usize >= nodes {
                return Err(SweepFault::NoNode);
            }
            Ok(())
        }
        None => Ok(()),
    }
}

/// Looks whether there are few runs to make, or so many are meant.
///
/// Error: [`SweepFault::TooMany`] where it isn't so.
fn check_runs(sweeping: &Sweeping, plan: &Plan, runs: u128) -> Result<(), SweepFault>
    requires { runs ≤ 2 ^ 80 }
    ensures ok { OnOk result (sweeping.now.meant ≡ false → (runs ≤ 20000) × (runs * plan.now.bits ≤ 2000000000)) }
    ensures err { IfErr result (λ f. (f ≡ TooMany runs (runs * plan.now.bits)) × (sweeping.now.meant ≡ false)
        × AreTooMany plan.now runs) }
{
    let bits = runs * u128::from(plan.bits());
    if sweeping.meant || (runs <= MOST_RUNS as u128 && bits <= MOST_SWEPT_BITS) {
        return Ok(());
    }
    Err(SweepFault::TooMany(runs, bits))
}

/// Looks whether the strikes of a run more are within those that a plan may have, if there is a run.
///
/// Error: [`SweepFault::StrikeCount`] where they aren't.
fn check_room(sweeping: &Sweeping, plan: &Plan, runs: u128) -> Result<(), SweepFault>
    ensures ok { OnOk result (0 < runs →
        times_in plan.now.strikes + strikes_a_run sweeping.now.pairs ≤ most_strikes plan.now.version) }
    ensures err { IfErr result (λ f. (f ≡ StrikeCount) × (0 < runs)
        × (most_strikes plan.now.version < times_in plan.now.strikes + strikes_a_run sweeping.now.pairs)) }
{
    let strikes = plan.strike_count() + strikes_a_run(sweeping.pairs);
    if runs > 0 && strikes > most_strikes(plan.version()) {
        return Err(SweepFault::StrikeCount);
    }
    Ok(())
}

/// How many strikes more a run has.
fn strikes_a_run(pairs: Option<u32>) -> u32
    ensures is { result ≡ strikes_a_run pairs }
    ensures few { result ≤ 2 }
{
    match pairs {
        None => 1,
        Some(_) => 2,
    }
}
