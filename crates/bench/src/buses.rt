//! The figures of whole buses: what the drivers gave is taken, each frame judged, each journal written, each port told.

use super::station::Station;
use can_frame::{Frame, Message};
use sja_journal::RECEIVE_FIFO;
use std::alloc::Global;

/// The bits of the longest kind of frame with intermission, and the bit in which it is asked for again.
const BITS: u32 = 145;

/// The bits in which started nodes wait for the bus.
const WAITING: u32 = 11;

/// How many frames a bus is run for at most: a run has at most 200,000 bits.
const FRAMES: u32 = 1_300;

/// How many messages a node's receive FIFO holds at most: so many of three bytes.
const MOST_HELD: u32 = RECEIVE_FIFO as u32 / 3;

/// A bus, how many of its nodes send, and whether the bits in which every node is at rest are run at once.
#[derive(Clone, Copy)]
pub struct Traffic {
    pub nodes: u8,
    pub senders: usize,
    pub at_once: bool,
}

/// Lets the bits of so many frames pass. Before each the senders' drivers ask for one, and after it every driver
/// releases the message that it was shown.
pub fn run(alloc: Global, count: u32, traffic: Traffic) -> Option<String> {
    let mut released = 0u64;
    for _ in 0..count / FRAMES {
        released = released.wrapping_add(released_of(alloc, FRAMES, traffic)?);
    }
    released = released.wrapping_add(released_of(alloc, count % FRAMES, traffic)?);
    let bits = u64::from(count).wrapping_mul(u64::from(BITS * u32::from(traffic.nodes)));
    format!(in alloc; "bits {bits} released {released}").ok()
}

/// How many messages were released in a run of so many frames, the last ones after it.
fn released_of(alloc: Global, frames: u32, traffic: Traffic) -> Option<u64> {
    let bits = frames.checked_mul(BITS)?.checked_add(WAITING)?;
    let messages = messages_of(alloc, traffic)?;
    let mut station = Station::new(alloc, traffic.nodes, bits)?;
    released_in(&mut station, messages.as_slice(), frames, traffic)
}

/// The same, on this bus with these messages.
fn released_in(
    station: &mut Station,
    messages: &[Message],
    frames: u32,
    traffic: Traffic,
) -> Option<u64> {
    if !station.bits(WAITING, traffic.at_once) {
        return None;
    }
    let mut released = 0u64;
    for _ in 0..frames {
        ask(station, messages);
        if !station.bits(BITS, traffic.at_once) {
            return None;
        }
        released = released.wrapping_add(release_each(station, traffic.nodes));
    }
    for _ in 0..MOST_HELD {
        released = released.wrapping_add(release_each(station, traffic.nodes));
    }
    Some(released)
}

/// Has the driver of each node release the first message that it was shown. Answers how many did.
fn release_each(station: &mut Station, nodes: u8) -> u64 {
    let mut released = 0u64;
    for node in 0..usize::from(nodes) {
        if station.release(node) {
            released = released.wrapping_add(1);
        }
    }
    released
}

/// Has the driver of each sender ask for its message.
fn ask(station: &mut Station, messages: &[Message]) {
    for node in 0..messages.len() {
        station.send(node, &messages[node]);
    }
}

/// The messages of the senders: extended data frames with eight data bytes, the identifier raised by the node's number.
fn messages_of(alloc: Global, traffic: Traffic) -> Option<Vec<Message>> {
    let data = [0x11, 0x22, 0x33, 0x44, 0x55, 0x66, 0x77, 0x88];
    let mut messages = Vec::with_capacity(alloc, traffic.senders).ok()?;
    let mut identifier = 0x1234_5678u32;
    for _ in 0..traffic.senders {
        let frame = Frame::new(true, identifier % 0x2000_0000, false, 8, &data).ok()?;
        messages.push(Message::of(&frame)).ok()?;
        identifier = identifier.wrapping_add(1);
    }
    Some(messages)
}
