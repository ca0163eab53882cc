//! The wire and the comparison of frames agree on where arbitration is lost, on generated sets of eight frames.

use super::random::next;
use super::wire::Wire;
use can_frame::Frame;
use can_node::contend;
use std::alloc::{AllocError, Global};

/// Identifiers of a standard frame, or the first 11 bits of an extended one.
const BASES: [u32; 8] = [0x000, 0x001, 0x01f, 0x123, 0x555, 0x7c0, 0x7fe, 0x7ff];

/// The last 18 bits of an extended identifier.
const EXTENSIONS: [u32; 8] = [
    0x00000, 0x00001, 0x00010, 0x01fff, 0x15555, 0x20000, 0x3fffe, 0x3ffff,
];

/// The first of so many sets on which wire and comparison don't agree; none where they do.
pub fn other_set(alloc: Global, sets: u32) -> Result<Option<u32>, AllocError> {
    for set in 0..sets {
        let frames = some_frames(alloc, set)?;
        if !agrees(alloc, frames.as_slice())? {
            return Ok(Some(set));
        }
    }
    Ok(None)
}

/// One of eight, by the three lowest bits of a number.
fn one_of(choices: &[u32; 8], number: u64) -> u32 {
    choices[usize::from((number % 8) as u8)]
}

/// Some frame without data, by a number. The frames of a set have one of two bases.
fn some_frame(set: u32, number: u64) -> Option<Frame> {
    let base = one_of(&BASES, u64::from(set) + (number >> 40) % 2);
    let rtr = (number >> 44) % 2 == 1;
    if (number >> 48) % 2 == 1 {
        let extension = one_of(&EXTENSIONS, number >> 52);
        Frame::new(true, (base << 18) | extension, rtr, 0, &[]).ok()
    } else {
        Frame::new(false, base, rtr, 0, &[]).ok()
    }
}

/// Eight frames of a set.
fn some_frames(alloc: Global, set: u32) -> Result<Vec<Frame>, AllocError> {
    let mut number = next(u64::from(set));
    let mut frames = Vec::new(alloc);
    for _ in 0..8 {
        number = next(number);
        if let Some(frame) = some_frame(set, number) {
            frames.push(frame)?;
        }
    }
    Ok(frames)
}

/// Whether stations with these frames lose where the comparison says. Arbitration is over with bit 60.
fn agrees(alloc: Global, frames: &[Frame]) -> Result<bool, AllocError> {
    let Ok(places) = contend(alloc, frames) else {
        return Err(AllocError);
    };
    let Some(mut wire) = Wire::of(alloc, frames) else {
        return Err(AllocError);
    };
    wire.run_to(60);
    let stations = wire.stations();
    let mut right = places.len() == 8 && stations.len() == 8;
    for (station, place) in stations.iter().zip(places.iter()) {
        right = right && station.first_code() == *place;
    }
    Ok(right)
}
