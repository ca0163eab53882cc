//! Turns of the bus.

use sja_plan::Plan;
use sja_plan_reading::read_plan;
use sja_promises::script_of;
use sja_serial::SerialRun;
use std::alloc::Global;
use std::test::Fail;

/// A node that starts, and asks for a frame that nobody acknowledges.
const ALONE: &str = "version = 1
bits = 200
[[node]]
steps = [\"start\", \"load 000000\", \"command 01\", \"sent\"]
";

/// Whether the bus takes, after four steps of the node, a turn to rest, one of no bit and one of a bit.
fn taken(alloc: Global, plan: &Plan) -> Result<[bool; 3], Fail> {
    if plan.nodes() != 1 {
        return Err("another number of nodes")?;
    }
    let steps = plan.step_counts(alloc)?;
    let script = script_of(alloc, plan)?;
    let mut run = SerialRun::new(alloc, plan.version(), u64::from(plan.bits()), steps, script)?;
    for step in plan.steps(0) {
        run.step(0, step);
    }
    let rests = run.rest_turn(plan.bits());
    let none = run.bus_turn(0);
    Ok([rests, none, run.bus_turn(1)])
}

/// A lone sender sends again and again, and never comes to rest: `rest` spends all bits. A turn of no bit, which no
/// plan has, is taken even then.
#[test]
fn a_turn_of_no_bit_is_taken_with_all_bits_spent(rt: HostRuntime) -> Result<(), Fail> {
    let plan = read_plan(rt.alloc(), ALONE.as_bytes())?;
    assert!(rt; taken(rt.alloc(), &plan)? == [false, true, false]);
    Ok(())
}
