//! A run that is made for more than its lists keep goes as one that keeps all.

use sja_plan::Plan;
use sja_plan_reading::read_plan;
use sja_promises::script_of;
use sja_serial::SerialRun;
use sja_steps::{StepAnswer, StepRecord};
use std::alloc::Global;
use std::test::Fail;

/// Node 0 sends a message of 3 bytes to node 1, which looks at it and releases it.
const PAIR: &str = "version = 1
bits = 200
[[node]]
steps = [\"start\", \"load 000000\", \"command 01\"]
[[node]]
steps = [\"start\", \"await 1\", \"window\", \"release\"]
";

/// How many messages are sent, and how often each is looked at: some ten thousand bits and five thousand steps.
const MESSAGES: u64 = 200;

const LOOKS: u64 = 25;

/// The step of the driver of a node that the plan has at this place.
fn step(run: &mut SerialRun, plan: &Plan, node: u8, place: usize) -> bool {
    match plan.steps(usize::from(node)).get(place) {
        Some(step) => run.step(node, step),
        None => false,
    }
}

/// A run that was made for so many bits, and for so many steps of each driver, after all messages; whether each step
/// was done at once.
fn exchanged(alloc: Global, bits: u64, steps: u64) -> Result<(SerialRun, bool), Fail> {
    let plan = read_plan(alloc, PAIR.as_bytes())?;
    let script = script_of(alloc, &plan)?;
    let steps = Vec::from_array(alloc, [steps, steps])?;
    let mut run = SerialRun::new(alloc, plan.version(), bits, steps, script)?;
    let mut done = step(&mut run, &plan, 0, 0) && step(&mut run, &plan, 1, 0);
    for _ in 0..MESSAGES {
        done &= step(&mut run, &plan, 0, 1) && step(&mut run, &plan, 0, 2);
        done &= run.rest_turn(1_000) && step(&mut run, &plan, 1, 1);
        for _ in 0..LOOKS {
            done &= step(&mut run, &plan, 1, 2);
        }
        done &= step(&mut run, &plan, 1, 3);
    }
    Ok((run, done))
}

/// How many steps a driver has done.
fn done_count(run: &SerialRun, node: usize) -> u64 {
    run.driver(node).log().done_count() as u64
}

/// The answer of the last step of a driver, and after how many bits it was.
fn last_of(run: &SerialRun, node: usize) -> Option<(StepAnswer, u64)> {
    let last: &StepRecord = run.driver(node).log().last_done()?;
    Some((last.answer.copy(), last.bits))
}

#[test]
fn a_run_without_an_end_goes_as_one_with_an_end(rt: HostRuntime) -> Result<(), Fail> {
    let (short, done) = exchanged(rt.alloc(), 2_000_000, 65_535)?;
    let (long, all_done) = exchanged(rt.alloc(), 1 << 62, 1 << 56)?;
    assert!(rt; done && all_done);
    assert!(rt; long.bits() == short.bits() && long.bits() > 10_000);
    for run in [&short, &long] {
        assert!(rt; done_count(run, 0) == 1 + 2 * MESSAGES);
        assert!(rt; done_count(run, 1) == 1 + (LOOKS + 2) * MESSAGES);
        assert!(rt; last_of(run, 1) == Some((StepAnswer::Released(3), run.bits())));
    }
    assert!(rt; last_of(&long, 0) == last_of(&short, 0));
    Ok(())
}
