//! [`AimedFrame`]: which frame an aim is at.

/// Which frame of a run an aim is at.
#[derive(Clone, Copy)]
pub(crate) enum AimedFrame {
    /// The one of this number, counted from 1, of all.
    OfAll(u32),
    /// The one of this number, counted from 1, of those that the node starts that is struck.
    OfNode(u32),
}
