//! A whole line read plainly: the list is taken apart, and each part is judged where it stands.

use arrayvec::ArrayVec;
use can_bits::crc_of;
use can_frame::{DATA_BYTES, Frame};
use can_levels::{Level, LineFault};

/// How many levels a CRC sequence has.
const CRC_LEVELS: usize = 15;

/// What a line begins with: body and CRC sequence without stuff bits, and how many levels it has with them.
#[derive(Drop)]
struct Part {
    bits: ArrayVec<Level, 118>,
    count: usize,
}

/// The frame whose acknowledged line these levels are, or the first fault.
pub fn read_plainly(levels: &[Level]) -> Result<Frame, LineFault> {
    let part = part_of(levels)?;
    let bits = part.bits.as_slice();
    let after = levels.get(part.count..).unwrap_or(&[]);
    judge_tail(after, part.count, is_right(bits))?;
    frame_of(bits).ok_or(LineFault::Truncated)
}

/// Takes the stuff bits out of the stuffed part that these levels begin with.
fn part_of(levels: &[Level]) -> Result<Part, LineFault> {
    let mut bits = ArrayVec::new();
    let mut last = Level::Dominant;
    let mut run = 0u8;
    for (at, level) in levels.iter().enumerate() {
        if at == 0 && level.is_recessive() {
            return Err(LineFault::Form(0));
        }
        let same = *level == last;
        if run == 5 && same {
            return Err(LineFault::Stuff(at));
        }
        if run != 5 {
            let _ = bits.try_push(*level);
        }
        run = if same { run.wrapping_add(1) } else { 1 };
        last = *level;
        if run != 5 && bits.len() == count_of(bits.as_slice()) {
            let count = at.saturating_add(1);
            return Ok(Part { bits, count });
        }
    }
    Err(LineFault::Truncated)
}

/// Whether the last 15 of these levels are the CRC sequence of those before.
fn is_right(bits: &[Level]) -> bool {
    let end = bits.len().saturating_sub(CRC_LEVELS);
    let body = bits.get(..end).unwrap_or(&[]);
    u32::from(crc_of(body)) == number_at(bits, end, CRC_LEVELS)
}

/// Judges what follows a stuffed part of so many levels: CRC delimiter, CRC sequence, ACK slot, and the rest.
fn judge_tail(after: &[Level], count: usize, right: bool) -> Result<(), LineFault> {
    for (place, level) in after.iter().enumerate() {
        let at = count.saturating_add(place);
        if place >= 10 {
            return Err(LineFault::Trailing(at));
        }
        if place == 1 && level.is_recessive() {
            return Err(LineFault::NoAck);
        }
        if place != 1 && !level.is_recessive() {
            return Err(LineFault::Form(at));
        }
        if place == 0 && !right {
            return Err(LineFault::Crc);
        }
    }
    if after.len() < 10 {
        return Err(LineFault::Truncated);
    }
    Ok(())
}

/// The frame that a body and its CRC sequence spell.
fn frame_of(bits: &[Level]) -> Option<Frame> {
    let high = number_at(bits, 1, 11);
    let id = if is_extended(bits) {
        high.wrapping_mul(1 << 18)
            .wrapping_add(number_at(bits, 14, 18))
    } else {
        high
    };
    let first = dlc_place(bits).saturating_add(4);
    let mut data: ArrayVec<u8, DATA_BYTES> = ArrayVec::new();
    for k in 0..data_count(bits) {
        let byte = number_at(bits, first.saturating_add(k.saturating_mul(8)), 8);
        data.try_push(u8::try_from(byte).ok()?).ok()?;
    }
    let dlc = u8::try_from(dlc_of(bits)).ok()?;
    Frame::new(is_extended(bits), id, is_remote(bits), dlc, data.as_slice()).ok()
}

/// How many levels body and CRC sequence have, by what has come of them.
fn count_of(bits: &[Level]) -> usize {
    let levels = data_count(bits).saturating_mul(8);
    levels
        .saturating_add(dlc_place(bits))
        .saturating_add(4 + CRC_LEVELS)
}

/// Whether the frame is an extended one: IDE.
fn is_extended(bits: &[Level]) -> bool {
    level_at(bits, 13).is_recessive()
}

/// Whether it is a remote frame: RTR.
fn is_remote(bits: &[Level]) -> bool {
    level_at(bits, if is_extended(bits) { 32 } else { 12 }).is_recessive()
}

/// The place of the DLC's first bit.
fn dlc_place(bits: &[Level]) -> usize {
    if is_extended(bits) { 35 } else { 15 }
}

/// The DLC.
fn dlc_of(bits: &[Level]) -> u32 {
    number_at(bits, dlc_place(bits), 4)
}

/// How many data bytes there are.
fn data_count(bits: &[Level]) -> usize {
    if is_remote(bits) {
        return 0;
    }
    match usize::try_from(dlc_of(bits)) {
        Ok(dlc) => dlc.min(DATA_BYTES),
        Err(_) => DATA_BYTES,
    }
}

/// The number that so many levels write in binary from a place on.
fn number_at(bits: &[Level], from: usize, count: usize) -> u32 {
    let mut number = 0u32;
    for place in from..from.saturating_add(count) {
        let digit = u32::from(level_at(bits, place).digit());
        number = number.wrapping_mul(2).wrapping_add(digit);
    }
    number
}

/// The level at a place; one that hasn't come counts as dominant.
fn level_at(bits: &[Level], place: usize) -> Level {
    match bits.get(place) {
        Some(level) => *level,
        None => Level::Dominant,
    }
}
