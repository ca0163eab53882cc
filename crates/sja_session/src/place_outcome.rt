//! What comes of bits up to a place.

/// What comes of bits that were run up to a place of a node (this project's own rule).
#[derive(Clone, Copy, Debug, PartialEq, Eq)]
pub struct PlaceOutcome {
    /// How many bits were run.
    pub bits: u32,
    /// Whether the node's next bit is at the place. If not, as many were run as were asked for, or as are left.
    pub there: bool,
}
