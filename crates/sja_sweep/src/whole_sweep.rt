//! [`sweep`] and [`sweep_jobs`]: whole sweeps, in one thread and in several.

ghost use Rattle.std.specs.Prelude.{map, string_bytes, IfOk, IfErr};
ghost use Rattle.sja_plan.specs.Plan.{PlanValue};
ghost use Rattle.sja_sweep.specs.Inside.Reaching.{trial_run_value, outcome_value};
ghost use Rattle.sja_sweep.specs.Inside.Tried.{IsBegun, AreTried};
ghost use Rattle.sja_sweep.specs.Sweeps.{IsSweep, IsSweepFault};

use super::jobs::tried_in_jobs;
use super::runs::all_tried;
use super::sweep_fault::SweepFault;
use super::sweep_start::{SweepStart, begin};
use super::sweep_texts::SweepTexts;
use super::sweeping::Sweeping;
use super::trial_outcome::TrialOutcome;
use super::write_texts::write_texts;
use sja_plan::Plan;
use std::alloc::{AllocError, Global};
use std::thread::Threads;

/// Runs a plan as it is, and then with what is tried: one strike more, or two, one run after the other. It tells what
/// came of each trial, against the run of the plan as it is.
///
/// The texts are those of just these runs: of their logs, each as [`run_serial`](sja_serial::run_serial) promises it,
/// and of the errors in each bit of each node.
///
/// Errors, the first that holds: [`SweepFault::NoNode`] where a node is asked for that the plan doesn't have;
/// [`SweepFault::TooMany`] where there are more runs than 20,000, or where these times the plan's bits are more than
/// 2,000,000,000, unless so many are meant; [`SweepFault::StrikeCount`] where there is a run to make and the plan's
/// strikes, with those of the run more, strike more bits than they may in its version.
/// [`SweepFault::Run`], where memory was refused to a run, and [`SweepFault::Memory`], where it was refused otherwise,
/// may come at any time once the node was looked for.
#[tactic(auto, using(crate::proofs::TriedRuns::RunFaults::trial_fails))]
pub fn sweep(alloc: Global, plan: &Plan, sweeping: &Sweeping) -> Result<SweepTexts, SweepFault>
    ensures ok { IfOk result (λ swept. IsSweep plan.now sweeping.now (string_bytes swept.text)
        (string_bytes swept.rows)) }
    ensures err { IfErr result (IsSweepFault plan.now sweeping.now) }
{
    let begun = begin(alloc, plan, sweeping)?;
    let tolds = all_tried(alloc, plan, &begun.planned, begun.trials.as_slice())?;
    let swept = texts(alloc, sweeping, &begun, tolds.as_slice())?;
    Ok(swept)
}

/// The same in so many threads, 0 as 1: what is tried is cut into so many parts of equal length, the last one maybe
/// shorter, and each part is a thread's own, where a thread can be made. The texts are the same for each number.
///
/// A run is dropped once its outcome is told, so that there are no more runs at one time than threads, beside that of
/// the plan as it is. The errors are those of [`sweep`].
#[tactic(auto, using(crate::proofs::TriedRuns::RunFaults::trial_fails))]
pub fn sweep_jobs<R: Threads + Sync>(
    rt: &R,
    alloc: Global,
    plan: &Plan,
    sweeping: &Sweeping,
    jobs: usize,
) -> Result<SweepTexts, SweepFault>
    ensures ok { IfOk result (λ swept. IsSweep plan.now sweeping.now (string_bytes swept.text)
        (string_bytes swept.rows)) }
    ensures err { IfErr result (IsSweepFault plan.now sweeping.now) }
{
    let begun = begin(alloc, plan, sweeping)?;
    let trials = begun.trials.as_slice();
    let tolds = tried_in_jobs(rt, alloc, plan, &begun.planned, trials, jobs)?;
    let swept = texts(alloc, sweeping, &begun, tolds.as_slice())?;
    Ok(swept)
}

/// The texts of a sweep that is begun, by what came of each trial.
///
/// Error: [`AllocError`] where memory was refused.
fn texts(
    alloc: Global,
    sweeping: &Sweeping,
    begun: &SweepStart,
    tolds: &[TrialOutcome],
) -> Result<SweepTexts, AllocError>
    ensures { (plan : PlanValue) → IsBegun plan sweeping.now (trial_run_value begun.now.planned) begun.now.trials.items
        → AreTried plan (trial_run_value begun.now.planned) begun.now.trials.items (map outcome_value tolds.now)
        → IfOk result (λ swept. IsSweep plan sweeping.now (string_bytes swept.text) (string_bytes swept.rows)) }
{
    write_texts(alloc, sweeping.asked, &begun.planned.log, tolds)
}
