//! A bit of a frame for its receiver (Bosch CAN 2.0 part A sections 3.1.1 and 6).
ghost use Rattle.std.specs.Prelude.{◌≡◌, ◌&&◌, not, List, ◌++◌, ◌∷◌, []};
ghost use Rattle.can_levels.specs.Fields.{is_recessive};
ghost use Rattle.can_levels.specs.declared.level.Level.{Level as Bus};
ghost use Rattle.can_bits.specs.Shifts.{StandsFor};
ghost use Rattle.can_node_rules.specs.Causes.{cause_by};
ghost use Rattle.can_node_rules.specs.Bits.{Bit};
ghost use Rattle.can_node.specs.Inside.Turns.{ReceivesBit};

use super::after_bit::AfterBit;
use super::ending::Ending;
use super::stage::Stage;
use can_bits::{KeptFrame, Shift};
use can_levels::{Level, LineFault, Segment};
use can_node_rules::{Cause, FaultSite};

/// The cause of a fault of a line.
fn cause_of(fault: &LineFault) -> Cause
    ensures { result ≡ cause_by fault.now }
{
    match fault {
        LineFault::Stuff(_) => Cause::Stuff,
        LineFault::Crc => Cause::Crc,
        LineFault::Form(_) | LineFault::NoAck | LineFault::Truncated | LineFault::Trailing(_) =>
            Cause::Form,
    }
}

/// Whether an own dominant level, the acknowledgement, isn't seen.
fn is_lost(driven: Level, seen: Level) -> bool
    ensures { result ≡ (not (is_recessive driven) && is_recessive seen) }
{
    !driven.is_recessive() && seen.is_recessive()
}

/// An error that a receiver finds.
fn error(cause: Cause, segment: Segment) -> AfterBit
    ensures { result ≡ AfterBit.Ended (Ending.Fault FaultSite.InReception cause segment) }
{
    AfterBit::Ended(Ending::Fault {
        site: FaultSite::InReception,
        cause,
        segment,
    })
}

/// A bit of a frame for its receiver: the frame goes on, or it is received with the sixth bit of EOF, or there is an
/// error: a level with which no line goes on (stuff error or form error), the ACK delimiter after a wrong CRC sequence
/// (CRC error), or an acknowledgement of its own that isn't seen (bit error). The frame is the kept one where that is
/// of the same levels.
pub(crate) fn receive(
    shift: &mut Shift,
    driven: Level,
    seen: Level,
    room: Option<&mut KeptFrame>,
) -> AfterBit
    ensures stands { (l : List Bus) → StandsFor shift.old l → StandsFor shift.new (l ++ seen ∷ []) }
    ensures turn { ReceivesBit shift.old driven seen result }
{
    if is_lost(driven, seen) {
        let segment = shift.next_segment();
        shift.advance(seen);
        return error(Cause::Bit, segment);
    }
    match shift.advance(seen) {
        Some(wrong) => error(cause_of(&wrong.fault), wrong.segment),
        None => match shift.frame_or_kept(room) {
            Some(frame) => AfterBit::Ended(Ending::Received(frame)),
            None => AfterBit::InPiece(Stage::InFrame),
        },
    }
}
