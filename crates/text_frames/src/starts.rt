//! Where frames begin, and which bits belong to them.

ghost use Rattle.std.specs.Prelude.{◌≡◌, ◌&&◌};
ghost use Rattle.text_trace.specs.Events.{is_frame};
ghost use Rattle.text_frames.specs.FrameBits.{started_by, frame_in, is_intermission, is_within, belongs};
ghost use Rattle.text_frames.specs.Passing.{belongs_by};

use can_frame::Frame;
use can_node_rules::{Phase, Request};
use sja_replay::{BitEvent, ShortBit};
use text_trace::{is_frame, is_start};

/// The frame whose SOF the bit is, where the node is its transmitter from then on.
pub(crate) fn started_by(bit: &BitEvent) -> Option<Frame>
    ensures { result ≡ started_by bit.now }
{
    if is_start(bit) && bit.after.transmits {
        frame_in(&bit.before.held)
    } else {
        None
    }
}

/// The frame of a request, if there is one.
fn frame_in(held: &Option<Request>) -> Option<Frame>
    ensures { result ≡ frame_in held.now }
{
    match held {
        Some(request) => Some(request.frame.copy()),
        None => None,
    }
}

/// Whether a bit belongs to a frame or the intermission after it, where intermission began or not.
pub(crate) fn belongs(paused: bool, bit: &BitEvent) -> bool
    ensures { result ≡ belongs paused bit.now }
{
    is_intermission(bit.before.phase) || (!paused && is_within(bit))
}

/// The same of a bit in short.
pub(crate) fn belongs_short(paused: bool, bit: &ShortBit) -> bool
    ensures { result ≡ belongs_by paused bit.now }
{
    is_intermission(bit.phase) || (!paused && is_within_short(bit))
}

/// Whether the bit belongs to the frame itself, in short.
fn is_within_short(bit: &ShortBit) -> bool
    ensures { result ≡ (is_frame bit.now.phase && bit.now.transmits) }
{
    is_frame(bit.phase) && bit.transmits
}

/// Whether the bit belongs to the frame itself.
pub(crate) fn is_within(bit: &BitEvent) -> bool
    ensures { result ≡ is_within bit.now }
{
    is_frame(bit.before.phase) && bit.before.transmits
}

/// Whether a bit in this phase belongs to intermission (Bosch CAN 2.0 part A section 3.1.5).
pub(crate) fn is_intermission(phase: Phase) -> bool
    ensures { result ≡ is_intermission phase }
{
    matches!(phase, Phase::Intermission)
}
