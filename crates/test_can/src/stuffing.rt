//! [`received_line`]: the line of a body, made plainly.

use super::levels::push_text;
use can_bits::crc_of;
use can_levels::Level;
use std::alloc::{AllocError, Global};

/// The acknowledged line of a body: its CRC sequence and stuff bits are added.
pub fn received_line(alloc: Global, body: &[Level]) -> Result<Vec<Level>, AllocError> {
    let bits = with_check(alloc, body)?;
    let mut line = stuffed(alloc, bits.as_slice())?;
    push_text(&mut line, "1011111111")?;
    Ok(line)
}

/// A body with its CRC sequence.
fn with_check(alloc: Global, body: &[Level]) -> Result<Vec<Level>, AllocError> {
    let mut bits = Vec::new(alloc);
    for level in body {
        bits.push(*level)?;
    }
    let mut check = crc_of(body);
    for _ in 0..15u32 {
        bits.push(Level::of(check & 0x4000 != 0))?;
        check = check.wrapping_shl(1);
    }
    Ok(bits)
}

/// Levels with a stuff bit behind each five that are equal.
fn stuffed(alloc: Global, bits: &[Level]) -> Result<Vec<Level>, AllocError> {
    let mut line = Vec::new(alloc);
    let mut last = Level::Recessive;
    let mut equal = 0u8;
    for level in bits {
        equal = if *level == last {
            equal.wrapping_add(1)
        } else {
            1
        };
        last = *level;
        line.push(last)?;
        if equal == 5 {
            last = last.opposite();
            equal = 1;
            line.push(last)?;
        }
    }
    Ok(line)
}
