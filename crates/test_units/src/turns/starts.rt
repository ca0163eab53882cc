//! How many starts a node has in a run in one thread.

use sja_serial::SerialRun;
use sja_steps::{FaultScript, Refusal, Step, StepAnswer};
use std::alloc::Global;
use std::test::Fail;

/// So many starts are tried, each with a stop behind it.
const TRIED: u64 = 100;

/// The steps of a run of one node, with a start more.
fn steps_of_one(alloc: Global) -> Result<Vec<u64>, Fail> {
    Ok(Vec::from_array(alloc, [2 * TRIED + 1])?)
}

/// A script without strikes.
fn no_strikes(alloc: Global) -> FaultScript {
    FaultScript::of(Vec::new(alloc))
}

/// What a step of the node is answered; nothing where it isn't done at once.
fn answered(run: &mut SerialRun, step: &Step) -> Option<StepAnswer> {
    if !run.step(0, step) {
        return None;
    }
    Some(run.driver(0).log().last_done()?.answer.copy())
}

/// How many starts are done before one isn't, or its stop.
fn starts(run: &mut SerialRun) -> u64 {
    let mut done = 0;
    for _ in 0..TRIED {
        if answered(run, &Step::Start) != Some(StepAnswer::Done)
            || answered(run, &Step::Stop) != Some(StepAnswer::Done)
        {
            break;
        }
        done += 1;
    }
    done
}

#[test]
fn a_run_of_a_version_after_the_last_has_the_starts_of_the_last(
    rt: HostRuntime,
) -> Result<(), Fail> {
    for version in [3, 4, 255] {
        let steps = steps_of_one(rt.alloc())?;
        let mut run = SerialRun::new(rt.alloc(), version, 200, steps, no_strikes(rt.alloc()))?;
        assert!(rt; starts(&mut run) == 64);
        let refused = StepAnswer::Refused(Refusal::NoActivationLeft);
        assert!(rt; answered(&mut run, &Step::Start) == Some(refused));
    }
    Ok(())
}

#[test]
fn a_run_without_an_end_has_starts_that_are_not_used_up(rt: HostRuntime) -> Result<(), Fail> {
    let steps = steps_of_one(rt.alloc())?;
    let mut run = SerialRun::without_end(rt.alloc(), 1 << 62, steps, no_strikes(rt.alloc()))?;
    assert!(rt; starts(&mut run) == TRIED);
    assert!(rt; answered(&mut run, &Step::Start) == Some(StepAnswer::Done));
    Ok(())
}
