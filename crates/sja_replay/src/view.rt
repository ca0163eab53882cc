//! What a node shows of its next bit.

use can_levels::Segment;
use can_node::Node;
use can_node_rules::{Counters, FlagKind, Phase, Request};

/// What a node shows of its next bit.
#[derive(Debug, PartialEq, Eq, Drop)]
pub struct View {
    /// Where the node is with it.
    pub phase: Phase,
    /// The segment that it belongs to, in a frame from its second bit on.
    pub segment: Option<Segment>,
    /// Whether the node is transmitter of the frame that is on the bus, or was of the one that came last.
    pub transmits: bool,
    /// The error counters.
    pub counters: Counters,
    /// The request that is held.
    pub held: Option<Request>,
    /// The flag that is due or under way; outside flags the one that came last.
    pub flag: FlagKind,
}

impl View {
    ghost use Rattle.sja_replay.specs.Viewing.{Shows};

    /// What a node shows.
    pub(crate) fn of(node: &Node) -> View
        ensures { Shows node.now result }
    {
        View {
            phase: node.phase(),
            segment: node.segment(),
            transmits: node.is_transmitter(),
            counters: node.counters(),
            held: node.held(),
            flag: node.flag(),
        }
    }
}
