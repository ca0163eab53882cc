//! [`LastBit`]: the last bit of a frame.

use super::ending::Ending;
use can_levels::Segment;
use can_node_rules::{Cause, Phase};
use sja_replay::BitEvent;

/// The last bit of a frame, and how the frame ended with it.
#[derive(Clone, Copy, Debug)]
pub struct LastBit {
    /// Its number.
    pub bit: u32,
    /// How the frame ended.
    pub ending: Ending,
}

impl LastBit {
    ghost use Rattle.std.specs.Prelude.{◌≡◌};
    ghost use Rattle.text_frames.specs.Passing.{last_by};
    ghost use Rattle.text_trace.specs.Events.{is_frame};
    ghost use Rattle.text_frames.specs.FrameEnds.{ends_in};

    /// A bit of a frame, if no other comes after it.
    pub(crate) fn of(bit: &BitEvent) -> LastBit
        ensures { result ≡ ends_in bit.now }
    {
        let going = matches!(bit.after.phase, Phase::Frame);
        LastBit {
            bit: bit.bit,
            ending: ending_of(bit.events.lost, bit.events.fault, going),
        }
    }

    /// The same of a bit of which nothing is told, and after which the phase is this one still.
    pub(crate) fn silent(number: u32, phase: Phase) -> LastBit
        ensures { result ≡ last_by number phase }
    {
        LastBit {
            bit: number,
            ending: ending_of(None, None, matches!(phase, Phase::Frame)),
        }
    }
}

ghost use Rattle.std.specs.Prelude.{◌≡◌};
ghost use Rattle.text_frames.specs.FrameEnds.{ending_of};

/// How a frame ends with a bit that brought this, and after which the node is in the frame or not.
fn ending_of(lost: Option<u8>, fault: Option<(Cause, Segment)>, going: bool) -> Ending
    ensures { result ≡ ending_of lost fault going }
{
    match (lost, fault) {
        (Some(code), _) => Ending::Lost(code),
        (None, Some((cause, segment))) => Ending::Broken(cause, segment),
        (None, None) => if going { Ending::CutOff } else { Ending::Whole },
    }
}
