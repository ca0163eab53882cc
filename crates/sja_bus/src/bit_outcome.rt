//! What a bit brought to a node.

use can_node_rules::BitEvents;

/// What a bit brought to a node, and what came of the frame that was received with it.
#[derive(Debug, Drop)]
pub(crate) struct BitOutcome {
    pub(crate) events: BitEvents,
    /// The frame found no room.
    pub(crate) overrun: bool,
}
