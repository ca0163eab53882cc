//! [`StartedFrame`]: a frame that a node started, with its bits.

use super::frame_bit::FrameBit;
use super::last_bit::LastBit;
use can_frame::Frame;

/// A frame that a node started, with its bits, as far as it came. Each try is one of its own.
#[derive(Debug, Drop)]
pub struct StartedFrame {
    /// The node, counted from 0.
    pub node: usize,
    /// The frame.
    pub frame: Frame,
    /// The number of the bit that is its SOF.
    pub sof: u32,
    /// Its bits after SOF, and those of the intermission after it.
    pub bits: Vec<FrameBit>,
    /// The last bit of the frame itself.
    pub last: LastBit,
}
