//! What one bit brought to a node.

use super::reception::Reception;
use super::view::View;
use can_levels::Level;
use can_node_rules::BitEvents;

/// What one bit of the bus brought to a node.
#[derive(Debug, PartialEq, Eq, Drop)]
pub struct BitEvent {
    /// The number of the bit, counted from 0.
    pub bit: u32,
    /// The level that the node drove in it.
    pub driven: Level,
    /// The level that it saw.
    pub seen: Level,
    /// Whether an abort changed the node right before the bit.
    pub aborted: bool,
    /// What the node showed before the bit, once all that came before it was taken.
    pub before: View,
    /// What the bit told.
    pub events: BitEvents,
    /// What the node showed after it, and after bus-off where the node went bus-off in it.
    pub after: View,
    /// What became of the frame, where one was received with the bit.
    pub reception: Option<Reception>,
}
