//! [`FramePlace`]: a place in a frame.

use super::segment::Segment;

/// The place of a level in a frame: a stuff bit by its number, any other level by its segment.
#[derive(Clone, Copy, Debug)]
pub enum FramePlace {
    /// In this segment, behind so many levels of it that are no stuff bits.
    Plain(Segment, u8),
    /// The stuff bit of this number, counted from 1.
    StuffBit(u16),
}
