//! How a piece of a node's record ended.
use super::overload_condition::OverloadCondition;
use can_frame::Frame;
use can_levels::Segment;
use can_node_rules::{Cause, FaultSite, Request};

/// How a piece ended, with what the end tells.
#[derive(Debug, Drop)]
pub(crate) enum Ending {
    /// The bus was waited for.
    Integration,
    /// A recessive bit of an idle bus.
    IdleBit,
    Received(Frame),
    Sent(Request),
    Fault {
        site: FaultSite,
        cause: Cause,
        segment: Segment,
    },
    LastEofBit,
    Flag,
    Delimiter,
    InterframeSpace,
    /// Interframe space ended with the SOF of a frame.
    Sof,
    /// An overload flag is due.
    Overload(OverloadCondition),
}
