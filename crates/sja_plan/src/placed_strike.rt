//! [`PlacedStrike`]: a strike by place.

use super::place::Place;
use super::struck_frames::StruckFrames;

/// A strike by place: a node sees the other level at a place of some frames (this project's own rule).
#[derive(Clone, Copy, Debug, PartialEq, Eq)]
pub struct PlacedStrike {
    /// Its number among the strikes of its document, counted from 1.
    pub item: usize,
    /// The node, counted from 0.
    pub node: u8,
    /// The frames.
    pub frames: StruckFrames,
    /// The place.
    pub place: Place,
}
