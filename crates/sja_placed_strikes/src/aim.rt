//! [`Aim`]: one place of one frame, to be struck.

use super::aimed_frame::AimedFrame;
use sja_plan::Place;

/// One place of one frame that a node is to see at the other level.
#[derive(Clone, Copy)]
pub(crate) struct Aim {
    /// The number of the strike that has it among those of the document, counted from 1.
    pub(crate) item: usize,
    /// The node, counted from 0.
    pub(crate) node: u8,
    /// The frame.
    pub(crate) frame: AimedFrame,
    /// The place.
    pub(crate) place: Place,
}
