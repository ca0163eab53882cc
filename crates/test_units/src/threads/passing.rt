//! A driver in a thread of its own, and the bus's end in another.

use super::driver_threads::{GAVE_UP, WAITS, answers, both_ends, drive, one_port};
use super::gates::Open;
use super::part::Part;
use can_frame::Message;
use sja_rings::NodeDriver;
use sja_steps::Step;
use sja_threads::{ActsOfNode, Handover, LockedPort, TurnsOfNode};
use std::alloc::Global;
use std::marker::Brand;
use std::sync::{Mutex, Wait};
use std::test::Fail;
use std::thread::{Threads, join};

/// The bytes of the message that is handed over.
pub const HANDED: [u8; 3] = [0x00, 0x24, 0x40];

/// Both, each in a thread of its own: what the driver did, and whether the bus's part was done.
fn both<R: Threads + Wait + Sync>(
    rt: &R,
    alloc: Global,
    ports: &[Mutex<LockedPort<Brand>>],
    told: TurnsOfNode<Brand>,
    done: ActsOfNode<Brand>,
    steps: &[Step],
    part: Part,
) -> Result<(Handover<NodeDriver>, bool), Fail> {
    let Some(port) = ports.get(0) else {
        return Err("no port")?;
    };
    let (bus, driver) = both_ends(alloc)?;
    let (worked, passed) = join(
        rt,
        move || -> Result<Handover<NodeDriver>, Fail> {
            drive(rt, alloc, driver, port, done, steps, Open)
        },
        move || -> bool { part.is_done(rt, alloc, bus, ports, told) },
    );
    Ok((worked?, passed))
}

/// What the driver hands back. It fails where the bus's part wasn't done, a step was answered otherwise, or the port
/// isn't marked as ended.
pub fn handed_back<R: Threads + Wait + Sync>(
    rt: &R,
    alloc: Global,
    steps: &[Step],
    part: Part,
    expected: &str,
) -> Result<Handover<NodeDriver>, Fail> {
    let (port, told, done) = one_port();
    let ports = [Mutex::new(port)];
    let (worked, passed) = both(rt, alloc, &ports, told, done, steps, part)?;
    if !passed || !ports[0].lock(rt).orders().ended {
        return Err("another item came, or the driver hasn't ended")?;
    }
    answers(alloc, &worked, expected)?;
    Ok(worked)
}

/// How many messages the driver released.
pub fn released<R: Threads + Wait + Sync>(
    rt: &R,
    alloc: Global,
    steps: &[Step],
    part: Part,
    expected: &str,
) -> Result<usize, Fail> {
    let worked = handed_back(rt, alloc, steps, part, expected)?;
    Ok(worked.driver.log().released()?.len())
}

#[test]
fn a_message_goes_from_thread_to_thread(rt: HostRuntime) -> Result<(), Fail> {
    let steps = [
        Step::Start,
        Step::Await(1),
        Step::Window,
        Step::Release,
        Step::Stop,
    ];
    let expected = "ok, ok, 00 24 40, 3, ok";
    let part = Part::HandOver(Message::from_bytes(&HANDED)?);
    assert!(rt; released(&rt, rt.alloc(), &steps, part, expected)? == 1);
    Ok(())
}

#[test]
fn a_wait_is_given_up_once_the_board_closes_the_port(rt: HostRuntime) -> Result<(), Fail> {
    assert!(rt; released(&rt, rt.alloc(), &WAITS, Part::Shut, GAVE_UP)? == 0);
    Ok(())
}
