//! The first wrong level of a reader, kept.

use super::line_fault::LineFault;
use super::segment::Segment;
use super::shift_event::ShiftEvent;

/// The first level that was wrong.
#[derive(Clone, Copy, Debug)]
pub struct ShiftFault {
    /// The segment that the level belongs to; a stuff bit belongs to that of the bit before it.
    pub segment: Segment,
    /// Whether the level is a stuff bit.
    pub stuff: bool,
    /// What is wrong with it.
    pub fault: LineFault,
}

impl ShiftFault {
    ghost use Rattle.std.specs.Prelude.{◌≡◌};
    ghost use Rattle.can_levels.specs.Judgements.{fault_event};

    /// The event of that level.
    pub fn event(self) -> ShiftEvent
        ensures { result ≡ fault_event self }
    {
        ShiftEvent {
            segment: self.segment,
            stuff: self.stuff,
            frame: None,
            fault: Some(self.fault),
        }
    }
}
