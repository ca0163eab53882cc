//! What a node shows of its next bit beside the phase: role, request, flag, and the segment of a frame.

use super::node::Node;
use super::stage::Stage;
use can_levels::Segment;
use can_node_rules::{FlagKind, Request};

impl Node {
    ghost use Rattle.can_node.specs.NextField.{ShowsRole, ShowsRequest, ShowsFlag, ShowsSegment};

    /// Whether the node is transmitter: from its own start of frame until it is idle, loses arbitration or takes
    /// another node's start of frame (Bosch CAN 2.0 part A section 3.2).
    pub fn is_transmitter(&self) -> bool
        ensures { ShowsRole self.now result }
    {
        self.context.is_transmitter()
    }

    /// An equal of the request that is held.
    pub fn held(&self) -> Option<Request>
        ensures { ShowsRequest self.now result }
    {
        match &self.context.held {
            Some(request) => Some(request.copy()),
            None => None,
        }
    }

    /// The flag that is due or under way; outside flags the one that came last, and an active error flag before the
    /// first one.
    pub fn flag(&self) -> FlagKind
        ensures { ShowsFlag self.now result }
    {
        self.context.flag
    }

    /// The segment that the next bit belongs to, in a frame from its second bit on; a stuff bit belongs to that of the
    /// bit before it (SJA1000 data sheet, 6.4.9).
    pub fn segment(&self) -> Option<Segment>
        ensures { ShowsSegment self.now result }
    {
        match self.stage {
            Stage::InFrame => Some(self.shift.next_segment()),
            Stage::LastEofBit => Some(Segment::EndOfFrame),
            _ => None,
        }
    }
}
