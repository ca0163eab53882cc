//! Whole lists of levels read by `read_line`, plainly, and by the reader of one level at a time: the three agree.

use super::plain::read_plainly;
use super::random::next;
use can_bits::{Shift, line_of, read_line};
use can_frame::{DATA_BYTES, Frame};
use can_levels::{Level, LineFault};
use std::alloc::{AllocError, Global};

/// The first of so many generated lists of which the three readers don't say the same; none where they agree.
pub fn other_list(alloc: Global, lists: u32) -> Result<Option<u32>, AllocError> {
    let mut number = 1;
    for list in 0..lists {
        number = next(number);
        if let Some(frame) = some_frame(number) {
            number = next(number);
            if !agree_on(alloc, &frame, number)? {
                return Ok(Some(list));
            }
        }
    }
    Ok(None)
}

/// Whether the three readers agree on the levels that this number makes of a frame's line.
fn agree_on(alloc: Global, frame: &Frame, number: u64) -> Result<bool, AllocError> {
    let levels = some_levels(alloc, frame, number)?;
    let read = read_line(levels.as_slice());
    Ok(read == read_plainly(levels.as_slice()) && agree(levels.as_slice()))
}

/// Some frame: format, kind, identifier, DLC and data by this number.
fn some_frame(number: u64) -> Option<Frame> {
    let ext = (number >> 40) & 1 == 1;
    let rtr = (number >> 41) & 7 == 0;
    let most = if ext { 0x1fff_ffff } else { 0x7ff };
    let id = u32::try_from((number >> 8) & most).ok()?;
    let code = u8::try_from((number >> 44) & 15).ok()?;
    let data = number.to_le_bytes();
    let count = if rtr {
        0
    } else {
        usize::from(code).min(DATA_BYTES)
    };
    Frame::new(ext, id, rtr, code, data.get(..count)?).ok()
}

/// The number of these lowest bits.
fn low_bits(number: u64, mask: u64) -> usize {
    usize::try_from(number & mask).unwrap_or(0)
}

/// The line of a frame, acknowledged, with one level turned, and cut or with levels past it.
fn some_levels(alloc: Global, frame: &Frame, number: u64) -> Result<Vec<Level>, AllocError> {
    let Ok(mut levels) = line_of(alloc, frame) else {
        return Err(AllocError);
    };
    let slot = levels.len().saturating_sub(9);
    if let Some(level) = levels.get_mut(slot) {
        *level = Level::Dominant;
    }
    if let Some(level) = levels.get_mut(low_bits(number >> 20, 0xff)) {
        *level = level.opposite();
    }
    if low_bits(number >> 30, 3) == 0 {
        levels.truncate(low_bits(number >> 32, 0x7f));
    }
    if low_bits(number >> 30, 7) == 1 {
        levels.push(Level::Recessive)?;
    }
    Ok(levels)
}

/// The frame that a reader of one level at a time tells for these levels, and its first fault.
fn streamed(levels: &[Level]) -> (Option<Frame>, Option<LineFault>) {
    let mut shift = Shift::new();
    let mut frame = None;
    for level in levels {
        let event = shift.step(*level);
        if event.fault.is_some() {
            return (frame, event.fault);
        }
        if event.frame.is_some() {
            frame = event.frame;
        }
    }
    (frame, None)
}

/// Whether the two answers are of one kind and the same, or differ as they may: a wrong CRC sequence and a missing
/// acknowledgement are judged at other places.
fn agree(levels: &[Level]) -> bool {
    let (frame, fault) = streamed(levels);
    match read_line(levels) {
        Ok(read) => fault.is_none() && frame == Some(read),
        Err(LineFault::Crc) => frame.is_none() && !matches!(fault, Some(LineFault::Stuff(_))),
        Err(LineFault::NoAck) => !matches!(fault, Some(LineFault::Stuff(_) | LineFault::Crc)),
        Err(LineFault::Truncated) => fault.is_none(),
        Err(first) => fault == Some(first),
    }
}
