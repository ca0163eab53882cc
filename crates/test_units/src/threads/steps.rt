//! A driver whose links nobody is at the other end of.

use super::driver_threads::{GAVE_UP, WAITS, answers, both_ends, drive, one_port};
use super::gates::{HoldsOnce, Open, Patience};
use sja_steps::Step;
use sja_threads::{ActsOfNode, Gate, LockedPort};
use std::alloc::Global;
use std::marker::Brand;
use std::sync::{Mutex, Wait};
use std::test::Fail;

/// A driver starts, looks at its window, and stops.
const LOOKS: [Step; 3] = [Step::Start, Step::Window, Step::Stop];

/// Which activation the driver of these steps is in at the end. It fails where a step was answered otherwise, the port
/// isn't marked as ended.
fn activation_of<G: Gate>(
    rt: &impl Wait,
    alloc: Global,
    port: &Mutex<LockedPort<Brand>>,
    done: ActsOfNode<Brand>,
    steps: &[Step],
    gate: G,
    expected: &str,
) -> Result<u64, Fail> {
    let (_bus, end) = both_ends(alloc)?;
    let worked = drive(rt, alloc, end, port, done, steps, gate)?;
    if !port.lock(rt).orders().ended {
        return Err("not ended")?;
    }
    answers(alloc, &worked, expected)?;
    Ok(worked.driver.activation())
}

#[test]
fn a_gate_that_quits_ends_the_script(rt: HostRuntime) -> Result<(), Fail> {
    let (port, _told, done) = one_port();
    let port = Mutex::new(port);
    let gate = Patience { tries: 1_000 };
    assert!(rt; activation_of(&rt, rt.alloc(), &port, done, &WAITS, gate, "ok")? == 1);
    Ok(())
}

#[test]
fn a_step_that_is_held_is_tried_again(rt: HostRuntime) -> Result<(), Fail> {
    let (port, _told, done) = one_port();
    let port = Mutex::new(port);
    let gate = HoldsOnce { last: 3 };
    let _ = activation_of(&rt, rt.alloc(), &port, done, &LOOKS, gate, "ok, none, ok")?;
    Ok(())
}

#[test]
fn steps_are_counted_from_1(rt: HostRuntime) -> Result<(), Fail> {
    let (port, _told, done) = one_port();
    let port = Mutex::new(port);
    let gate = HoldsOnce { last: 2 };
    assert!(rt; activation_of(&rt, rt.alloc(), &port, done, &LOOKS, gate, "ok, none")? == 1);
    Ok(())
}

#[test]
fn a_wait_at_a_closed_port_is_given_up(rt: HostRuntime) -> Result<(), Fail> {
    let (port, told, done) = one_port();
    let port = Mutex::new(port);
    let mut told = told;
    port.lock(&rt).close(&mut told);
    let _ = activation_of(&rt, rt.alloc(), &port, done, &WAITS, Open, GAVE_UP)?;
    Ok(())
}

#[test]
fn a_script_without_steps_only_ends(rt: HostRuntime) -> Result<(), Fail> {
    let (port, _told, done) = one_port();
    let port = Mutex::new(port);
    assert!(rt; activation_of(&rt, rt.alloc(), &port, done, &[], Open, "")? == 0);
    Ok(())
}
