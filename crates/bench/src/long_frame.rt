//! The frame that the figures send and read, and its line.

use can_bits::line_of;
use can_frame::Frame;
use can_levels::Level;
use std::alloc::Global;

/// An extended data frame with as much data as there can be.
pub fn long_frame() -> Option<Frame> {
    let data = [0x11, 0x22, 0x33, 0x44, 0x55, 0x66, 0x77, 0x88];
    Frame::new(true, 0x1234_5678, false, 8, &data).ok()
}

/// Its line, acknowledged: the ACK slot is the ninth level from its end.
pub fn long_line(alloc: Global) -> Option<Vec<Level>> {
    let mut line = line_of(alloc, &long_frame()?).ok()?;
    let slot = line.len().checked_sub(9)?;
    *line.get_mut(slot)? = Level::Dominant;
    Some(line)
}
