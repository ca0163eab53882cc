//! What a node shows of the place of its next bit.

use super::context::Context;
use super::node::Node;
use super::stage::Stage;
use can_levels::{FramePlace, Segment};
use can_node_rules::NodePlace;

/// How many bits intermission has (Bosch CAN 2.0 part A section 3.1.5).
const INTERMISSION: u8 = 3;

impl Node {
    ghost use Rattle.can_node.specs.NextPlace.{ShowsPlace};

    /// The place of the next bit in a frame, if it has one there: by what the node has read so far, be it transmitter
    /// or receiver, and by the request that it starts to send. It is that of the cut of its record.
    pub fn place(&self) -> Option<NodePlace>
        ensures { ShowsPlace self.now result }
    {
        match self.stage {
            Stage::BusIdle => self.context.start_place(),
            Stage::InFrame => Some(self.context.place_in_frame(self.shift.next_place())),
            Stage::LastEofBit => Some(NodePlace::InFrame(FramePlace::Plain(
                Segment::EndOfFrame,
                6,
            ))),
            Stage::InInterframeSpace { bits } => pause_place(bits),
            _ => None,
        }
    }
}

impl Context {
    ghost use Rattle.std.specs.Prelude.{◌≡◌, is_some};
    ghost use Rattle.can_node_rules.specs.Pieces.{sent_at};
    ghost use Rattle.can_node_rules.specs.Pieces.Place.{AtIdle};
    ghost use Rattle.can_node.specs.NextPlace.{start_if, in_frame, sends_extended};
    ghost use Rattle.can_node.specs.Standing.{context_of};

    /// The place where the bus is idle.
    fn start_place(&self) -> Option<NodePlace>
        ensures { result ≡ start_if (is_some (sent_at (context_of self.now) AtIdle)) }
    {
        if self.sends() {
            Some(NodePlace::Start)
        } else {
            None
        }
    }

    /// The place where the reader of levels has come to this one.
    fn place_in_frame(&self, place: FramePlace) -> NodePlace
        ensures { result ≡ in_frame (sends_extended (context_of self.now)) place }
    {
        if is_first_remote(place) && self.sends_extended() {
            NodePlace::Srr
        } else {
            NodePlace::InFrame(place)
        }
    }

    /// Whether it sends an extended frame.
    fn sends_extended(&self) -> bool
        ensures { result ≡ sends_extended (context_of self.now) }
    {
        match &self.held {
            Some(request) => self.is_transmitter() && request.frame.ext(),
            None => false,
        }
    }
}

ghost use Rattle.std.specs.Prelude.{◌≡◌};
ghost use Rattle.can_node.specs.NextPlace.{is_first_remote, pause_if};

/// Whether it is RTR of a standard frame, or SRR.
fn is_first_remote(place: FramePlace) -> bool
    ensures { result ≡ is_first_remote place }
{
    match place {
        FramePlace::Plain(segment, _) => segment.code() == Segment::RtrStandard.code(),
        FramePlace::StuffBit(_) => false,
    }
}

/// The place after so many bits of interframe space.
fn pause_place(bits: u8) -> Option<NodePlace>
    ensures { result ≡ pause_if bits }
{
    if bits < INTERMISSION {
        Some(NodePlace::Intermission(bits + 1))
    } else {
        None
    }
}
