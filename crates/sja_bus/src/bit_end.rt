//! What the nodes of a bus leave to their next bit.

use can_levels::Level;

/// How all nodes are after a bit.
#[derive(Debug, Drop)]
pub(crate) struct BitEnd {
    /// The level on the bus in the next bit, where nothing is taken and nothing aborted before it: dominant where any
    /// node drives dominant.
    pub(crate) level: Level,
    /// Some port was told the turn of the bit.
    pub(crate) told: bool,
}
