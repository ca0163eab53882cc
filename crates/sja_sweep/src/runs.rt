//! The runs of a sweep, each with one strike, or two.

ghost use Rattle.std.specs.Prelude.{◌≡◌, ◌+◌, ◌<◌, ◌≤◌, length, All, IfOk, IfErr};
ghost use Rattle.sja_plan.specs.Limits.{most_strikes};
ghost use Rattle.sja_plan.specs.Plan.{times_in};
ghost use Rattle.sja_plan.specs.Struck.{struck_at};
ghost use Rattle.sja_sweep.specs.Errors.{IsRan};
ghost use Rattle.sja_sweep.specs.declared.sweep_fault.SweepFault.TheVariants.{Memory};
ghost use Rattle.sja_sweep.specs.Targets.{struck_by};
ghost use Rattle.sja_sweep.specs.Inside.Reaching.{trial_run_value, outcome_value, IsThere, IsTrialFault};
ghost use Rattle.sja_sweep.specs.Inside.Tried.{IsTried, AreTold};

use super::sweep_fault::SweepFault;
use super::target::Target;
use super::trial::Trial;
use super::trial_outcome::{TrialOutcome, told_of};
use super::trial_run::{TrialRun, run_plan};
use sja_plan::Plan;
use std::alloc::Global;

/// What came of each trial, in order.
pub(crate) fn all_tried(
    alloc: Global,
    plan: &Plan,
    planned: &TrialRun,
    trials: &[Trial],
) -> Result<Vec<TrialOutcome>, SweepFault>
    requires planned { IsRan plan.now (trial_run_value planned.now) }
    requires there { All (IsThere plan.now) trials.now }
    ensures ok { IfOk result (λ tolds. AreTold plan.now (trial_run_value planned.now) trials.now tolds.items) }
    ensures err { IfErr result IsTrialFault }
{
    let mut tolds = Vec::new(alloc);
    for trial in trials {
        tolds.push(tried(alloc, plan, planned, *trial)?)?;
    }
    Ok(tolds)
}

/// What came of one trial: the plan is run with it, and the run is dropped once its outcome is told.
fn tried(
    alloc: Global,
    plan: &Plan,
    planned: &TrialRun,
    trial: Trial,
) -> Result<TrialOutcome, SweepFault>
    requires planned { IsRan plan.now (trial_run_value planned.now) }
    requires there { IsThere plan.now trial }
    ensures ok { IfOk result (λ told. IsTried plan.now (trial_run_value planned.now) trial (outcome_value told)) }
    ensures err { IfErr result IsTrialFault }
{
    let struck = struck_by(alloc, plan, trial)?;
    let now = run_plan(alloc, &struck)?;
    Ok(told_of(alloc, plan, planned, trial, &now)?)
}

/// The plan with one strike more, or two.
fn struck_by(alloc: Global, plan: &Plan, trial: Trial) -> Result<Plan, SweepFault>
    requires { IsThere plan.now trial }
    ensures ok { IfOk result (λ struck. struck ≡ struck_by plan.now trial) }
    ensures nodes { IfOk result (λ struck. length struck.nodes ≡ length plan.now.nodes) }
    ensures err { IfErr result (λ fault. fault ≡ Memory) }
{
    let once = struck_at(alloc, plan, trial.first)?;
    match trial.second {
        None => Ok(once),
        Some(second) => struck_at(alloc, &once, second),
    }
}

/// The plan with one strike more.
fn struck_at(alloc: Global, plan: &Plan, target: Target) -> Result<Plan, SweepFault>
    requires there { target.node < length plan.now.nodes }
    requires room { times_in plan.now.strikes < most_strikes plan.now.version }
    ensures ok { IfOk result (λ struck. struck ≡ struck_at plan.now target.node target.bit) }
    ensures err { IfErr result (λ fault. fault ≡ Memory) }
{
    // there is room: memory was refused
    plan.with_strike(alloc, target.node, target.bit)
        .map_err(|_| SweepFault::Memory)
}
