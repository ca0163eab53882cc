//! The figure `line`: the received line of one frame is read whole again and again.

use super::long_frame::long_line;
use can_bits::read_line;
use std::alloc::Global;

/// Reads the line so many times, and tells how many levels and frames there were.
pub fn run(alloc: Global, count: u32) -> Option<String> {
    let line = long_line(alloc)?;
    let length = u64::try_from(line.len()).ok()?;
    let mut levels = 0u64;
    let mut frames = 0u64;
    let mut checksum = 0u64;
    for _ in 0..count {
        levels = levels.wrapping_add(length);
        if let Ok(frame) = read_line(&line) {
            frames = frames.wrapping_add(1);
            checksum = checksum.wrapping_add(u64::from(frame.id()));
        }
    }
    format!(in alloc; "levels {levels} frames {frames} checksum {checksum:016x}").ok()
}
