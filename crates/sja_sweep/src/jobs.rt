//! The runs of a sweep in several threads.

ghost use Rattle.std.specs.Prelude.{◌≡◌, ◌<◌, ◌≤◌, length, All, IfOk, IfErr};
ghost use Rattle.sja_sweep.specs.Errors.{IsRan};
ghost use Rattle.sja_sweep.specs.Inside.Reaching.{trial_run_value, IsThere, IsTrialFault};
ghost use Rattle.sja_sweep.specs.Inside.Tried.{AreTold};

use super::runs::all_tried;
use super::sweep_fault::SweepFault;
use super::trial::Trial;
use super::trial_outcome::TrialOutcome;
use super::trial_run::TrialRun;
use sja_plan::Plan;
use std::alloc::Global;
use std::thread::{Threads, map_chunks};

/// What came of each trial, in order. The trials are cut into so many parts of equal length, 0 as 1, of which the last
/// one may be shorter; each part is made in a thread of its own where one can be made.
pub(crate) fn tried_in_jobs<R: Threads + Sync>(
    rt: &R,
    alloc: Global,
    plan: &Plan,
    planned: &TrialRun,
    trials: &[Trial],
    jobs: usize,
) -> Result<Vec<TrialOutcome>, SweepFault>
    requires planned { IsRan plan.now (trial_run_value planned.now) }
    requires there { All (IsThere plan.now) trials.now }
    ensures ok { IfOk result (λ tolds. AreTold plan.now (trial_run_value planned.now) trials.now tolds.items) }
    ensures err { IfErr result IsTrialFault }
{
    let size = trials.len().div_ceil(jobs.max(1)).max(1);
    let part = |_: usize, trials: &[Trial]| -> Result<Vec<TrialOutcome>, SweepFault>
        requires { IsRan plan.now (trial_run_value planned.now) × All (IsThere plan.now) trials.now }
        ensures { IfOk result (λ tolds.
            AreTold plan.entry.now (trial_run_value planned.entry.now) trials.entry.now tolds.items)
            × IfErr result IsTrialFault }
    { all_tried(alloc, plan, planned, trials) };
    let parts = map_chunks(rt, alloc, trials, size, &part)?;
    let mut rest = parts.into_iter();
    let mut all = Vec::new(alloc);
    while let Some(part) = rest.next() {
        let mut tolds = part?;
        all.append(&mut tolds)?;
    }
    Ok(all)
}
