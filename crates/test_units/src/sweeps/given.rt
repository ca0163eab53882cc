//! Sweeps of plans that are given as text.

use sja_plan_reading::read_plan;
use sja_sweep::{SweepFault, SweepTexts, Sweeping, sweep, sweep_jobs};
use std::alloc::{AllocError, AllocGlobal, Global};
use std::test::Fail;
use std::thread::Threads;

/// Node 0 sends a frame, and node 1 releases it. It releases once more, which is refused.
pub fn one_frame() -> &'static str {
    "version = 1
bits = 400
turns = [\"node 0 3\", \"node 1 1\", \"rest\", \"node 1 2\"]
[[node]]
steps = [\"start\", \"load 000000\", \"command 01\"]
[[node]]
steps = [\"start\", \"release\", \"release\"]
"
}

/// The texts of the sweep of a plan.
pub fn swept(alloc: Global, plan: &str, sweeping: Sweeping) -> Result<SweepTexts, Fail> {
    let plan = read_plan(alloc, plan.as_bytes())?;
    Ok(sweep(alloc, &plan, &sweeping)?)
}

/// The texts of the sweep of a plan in so many threads.
pub fn swept_in<R: Threads + AllocGlobal + Sync>(
    rt: &R,
    plan: &str,
    sweeping: Sweeping,
    jobs: usize,
) -> Result<SweepTexts, Fail> {
    let plan = read_plan(rt.alloc(), plan.as_bytes())?;
    Ok(sweep_jobs(rt, rt.alloc(), &plan, &sweeping, jobs)?)
}

/// Why there is no sweep of a plan; nothing where there is one.
pub fn refused(alloc: Global, plan: &str, sweeping: Sweeping) -> Result<Option<SweepFault>, Fail> {
    let plan = read_plan(alloc, plan.as_bytes())?;
    Ok(sweep(alloc, &plan, &sweeping).err())
}

/// The text with each item in a line of its own, four spaces in.
pub fn unfolded(alloc: Global, text: &str) -> Result<String, AllocError> {
    text.replace(alloc, "; ", "\n    ; ")
}
