//! A whole line, read at once.

ghost use Rattle.std.specs.Prelude.{◌≡◌, ◌-◌, List, length, slice_set, IfOk, IfErr};
ghost use Rattle.can_frame.specs.Frame.{FrameValue};
ghost use Rattle.can_levels.specs.Line.{IsSentLine};
ghost use Rattle.can_levels.specs.Reading.{IsReceived, IsFirstFault};
ghost use Rattle.can_levels.specs.declared.level.Level.{Level as Bus};
ghost use Rattle.can_levels.specs.declared.line_fault.LineFault.{LineFault as Fault};

use super::shift::Shift;
use can_frame::Frame;
use can_levels::{Level, LineFault};

/// The frame whose acknowledged line these levels are.
///
/// Errors, the first in order of place: [`LineFault::Stuff`] and [`LineFault::Form`] at the first level with which no
/// line begins; [`LineFault::Crc`] for a wrong CRC sequence, judged after its delimiter; [`LineFault::NoAck`] for a
/// recessive ACK slot; [`LineFault::Truncated`] where the levels end before the line does; [`LineFault::Trailing`]
/// where they go on after it. Reserved bits and SRR are taken at either level, and all seven bits of EOF are recessive
/// (Bosch CAN 2.0 part B section 3.2; ISO 11898-1). The order, and that the last bit of EOF counts too, are this
/// project's own rule.
pub fn read_line(levels: &[Level]) -> Result<Frame, LineFault>
    ensures frame { IfOk result (λ f. IsReceived f levels.now) }
    ensures fault { IfErr result (IsFirstFault levels.now) }

    // each answer is the only one
    ensures frame_only { (f : FrameValue) → IsReceived f levels.now → result ≡ Ok f }
    ensures fault_only { (e : Fault) → IsFirstFault levels.now e → result ≡ Err e }

    // the line of a frame, acknowledged, gives the frame again
    ensures sent { (f : FrameValue) (l : List Bus) → IsSentLine f l
        → levels.now ≡ slice_set l (length l - 9) Level.Dominant
        → result ≡ Ok f }
{
    run(levels)
}

/// The same: a reader is given one level after the other.
fn run(levels: &[Level]) -> Result<Frame, LineFault>
    ensures frame { IfOk result (λ f. IsReceived f levels.now) }
    ensures fault { IfErr result (IsFirstFault levels.now) }
{
    let mut shift = Shift::new();
    for level in levels {
        shift.take_answered(*level)?;
    }
    match shift.frame_of_line() {
        Some(frame) => Ok(frame),
        None => Err(LineFault::Truncated),
    }
}
