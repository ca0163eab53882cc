//! [`NodePlace`]: the place of a node's next bit in a frame.

use can_levels::FramePlace;

/// The place of a node's next bit in a frame, or in the intermission after one.
#[derive(Clone, Copy, Debug)]
pub enum NodePlace {
    /// SOF of a frame that the node starts with the bit.
    Start,
    /// SRR of an extended frame that it sends. To a receiver that bit is RTR: the format is known with the next one.
    Srr,
    /// Any other place of a frame that it sends or receives.
    InFrame(FramePlace),
    /// A bit of intermission, counted from 1.
    Intermission(u8),
}
