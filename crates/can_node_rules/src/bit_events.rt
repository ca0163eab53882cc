//! What one bit brings: received, sent, lost, a fault, bus-off.

use super::cause::Cause;
use super::outcome::Outcome;
use can_frame::Frame;
use can_levels::Segment;

/// What one bit of the bus brings to a node.
#[derive(Debug, PartialEq, Eq, Drop)]
pub struct BitEvents {
    /// A frame is valid from this bit on: the sixth bit of its end of frame.
    pub received: Option<Frame>,
    /// The request that was held has ended.
    pub ended: Option<Outcome>,
    /// Arbitration was lost at this place code.
    pub lost: Option<u8>,
    /// A fault, with the segment that it was in.
    pub fault: Option<(Cause, Segment)>,
    /// The node is receiver once the bit is over.
    pub receiving: bool,
    /// The node went bus-off.
    pub went_off: bool,
    /// Bus-off ended.
    pub recovered: bool,
}

impl BitEvents {
    ghost use Rattle.std.specs.Prelude.{◌≡◌};
    ghost use Rattle.can_node_rules.specs.Outcomes.{nothing};

    /// What a bit brings in which nothing happened, to a receiver or not (this project's own rule).
    pub fn nothing(receiving: bool) -> BitEvents
        ensures { result ≡ nothing receiving }
    {
        BitEvents {
            received: None,
            ended: None,
            lost: None,
            fault: None,
            receiving,
            went_off: false,
            recovered: false,
        }
    }
}
