//! Plans whose reports are known: an overrun, the last EOF bit struck, a stop with unread messages.

use super::message_fates::MessageFates;
use super::ring_run::RingRun;
use can_frame::Message;
use sja_plan::Plan;
use sja_plan_reading::read_plan;
use std::alloc::Global;
use std::test::Fail;
use test_frames::runs::{RECEIVER_STRUCK, TRANSMITTER_STRUCK};

/// Runs the plan: how many bits, and what became of the messages of an activation of node 1.
fn told_of(alloc: Global, plan: &Plan, activation: u64) -> Result<(u32, MessageFates), Fail> {
    let mut run = RingRun::new(alloc, plan)?;
    let bits = run.run(plan)?;
    Ok((bits, run.collect(alloc, 1, activation)?))
}

/// The plan that a text is.
fn plan_of(alloc: Global, text: &str) -> Result<Plan, Fail> {
    match read_plan(alloc, text.as_bytes()) {
        Ok(plan) => Ok(plan),
        Err(_) => Err("not a plan")?,
    }
}

/// How many bits the run of a plan has. It fails where another became of the messages of an activation of node 1 than
/// that these were released, left unread and lost.
fn bits_of(
    alloc: Global,
    text: &str,
    activation: u64,
    released: &[[u8; 3]],
    unread: &[[u8; 3]],
    overrun: &[[u8; 3]],
) -> Result<u32, Fail> {
    let plan = plan_of(alloc, text)?;
    let (bits, told) = told_of(alloc, &plan, activation)?;
    are(told.released.as_slice(), released)?;
    are(told.unread.as_slice(), unread)?;
    are(told.overrun.as_slice(), overrun)?;
    Ok(bits)
}

/// Fails where these aren't the messages.
fn are(messages: &[Message], expected: &[[u8; 3]]) -> Result<(), Fail> {
    if messages.len() != expected.len() {
        return Err("another number of messages")?;
    }
    for place in 0..messages.len() {
        let Some(bytes) = expected.get(place) else {
            return Err("another number of messages")?;
        };
        if messages[place].bytes() != bytes.as_slice() {
            return Err("another message")?;
        }
    }
    Ok(())
}

/// A sender of the frame of `00 00 00`, once a `rest`, and a receiver that reads nothing before so many have come: in
/// the end it clears the overrun and releases one message, and the sender sends once more.
const OVERRUN: &str = "version = 1
bits = 2000
turns = [
    'node 0 1', 'node 1 1',
    'node 0 2', 'rest', 'node 0 2', 'rest', 'node 0 2', 'rest', 'node 0 2', 'rest', 'node 0 2', 'rest',
    'node 0 2', 'rest', 'node 0 2', 'rest', 'node 0 2', 'rest', 'node 0 2', 'rest', 'node 0 2', 'rest',
    'node 0 2', 'rest', 'node 0 2', 'rest', 'node 0 2', 'rest', 'node 0 2', 'rest', 'node 0 2', 'rest',
    'node 0 2', 'rest', 'node 0 2', 'rest', 'node 0 2', 'rest', 'node 0 2', 'rest', 'node 0 2', 'rest',
    'node 0 2', 'rest', 'node 0 2', 'rest',
    'node 1 4', 'node 0 2', 'rest',
]
[[node]]
steps = [
    'start',
    'load 000000', 'command 01', 'load 000000', 'command 01', 'load 000000', 'command 01', 'load 000000', 'command 01',
    'load 000000', 'command 01', 'load 000000', 'command 01', 'load 000000', 'command 01', 'load 000000', 'command 01',
    'load 000000', 'command 01', 'load 000000', 'command 01', 'load 000000', 'command 01', 'load 000000', 'command 01',
    'load 000000', 'command 01', 'load 000000', 'command 01', 'load 000000', 'command 01', 'load 000000', 'command 01',
    'load 000000', 'command 01', 'load 000000', 'command 01', 'load 000000', 'command 01', 'load 000000', 'command 01',
    'load 000000', 'command 01', 'load 000000', 'command 01', 'load 000000', 'command 01',
]
[[node]]
steps = ['start', 'read 2', 'command 08', 'read 2', 'release']
";

#[test]
fn the_message_that_finds_no_room_is_overrun_and_later_ones_are_stored(
    rt: HostRuntime,
) -> Result<(), Fail> {
    let zeros = [[0; 3]; 21];
    let bits = bits_of(rt.alloc(), OVERRUN, 1, &[[0; 3]], &zeros, &[[0; 3]])?;
    assert!(rt; bits == 1_230);
    Ok(())
}

#[test]
fn a_frame_whose_last_bit_is_struck_at_the_receiver_is_released_once(
    rt: HostRuntime,
) -> Result<(), Fail> {
    let bits = bits_of(rt.alloc(), RECEIVER_STRUCK, 1, &[[0; 3]], &[], &[])?;
    assert!(rt; bits == 79);
    Ok(())
}

#[test]
fn a_frame_whose_last_bit_is_struck_at_the_transmitter_is_released_twice(
    rt: HostRuntime,
) -> Result<(), Fail> {
    let released = [[0; 3], [0; 3]];
    let bits = bits_of(rt.alloc(), TRANSMITTER_STRUCK, 1, &released, &[], &[])?;
    assert!(rt; bits == 132);
    Ok(())
}

/// Three frames are received, and the receiver is stopped with all of them unread, and started again.
const STOPPED: &str = "version = 1
bits = 200
turns = [
  \"node 0 3\", \"node 1 1\", \"rest\", \"node 1 1\", \"node 0 2\", \"rest\", \"node 0 2\", \"rest\",
  \"node 1 2\", \"rest\", \"node 1 1\",
]
[[node]]
steps = [
  \"start\", \"load 000000\", \"command 01\", \"load 002440\", \"command 01\", \"load 002460\", \"command 01\",
]
[[node]]
steps = [\"start\", \"window\", \"stop\", \"start\", \"read 29\"]
";

#[test]
fn what_a_stopped_activation_left_unread_stays_its_own(rt: HostRuntime) -> Result<(), Fail> {
    let unread = [[0; 3], [0x00, 0x24, 0x40], [0x00, 0x24, 0x60]];
    assert!(rt; bits_of(rt.alloc(), STOPPED, 1, &[], &unread, &[])? == 171);
    assert!(rt; bits_of(rt.alloc(), STOPPED, 2, &[], &[], &[])? == 171);
    Ok(())
}
