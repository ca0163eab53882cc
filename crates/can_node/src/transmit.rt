//! A bit of a frame for its transmitter (Bosch CAN 2.0 part A sections 3.1.1 and 6).
ghost use Rattle.std.specs.Prelude.{◌≡◌, ◌↔◌, ◌++◌, ◌∷◌, [], List, Bool, Some, IsTrue};
ghost use Rattle.can_levels.specs.declared.level.Level.{Level as Bus};
ghost use Rattle.can_levels.specs.Acknowledging.{IsAckDue};
ghost use Rattle.can_levels.specs.Places.{is_early_stuff};
ghost use Rattle.can_bits.specs.Shifts.{StandsFor};
ghost use Rattle.can_levels.specs.Streaming.{IsReadable};
ghost use Rattle.can_node_rules.specs.Bits.{Bit};
ghost use Rattle.can_node_rules.specs.TransmitterCauses.{cause_of_bit, kind_of};
ghost use Rattle.can_node.specs.Inside.Turns.{TransmitsBit};

use super::after_bit::AfterBit;
use super::ending::Ending;
use super::stage::Stage;
use can_bits::Shift;
use can_levels::Level;
use can_node_rules::{Cause, FaultSite, OwnBit, Request};

/// What the next bit is to the transmitter of a frame of this format, which loses arbitration in it or not.
fn own_bit(shift: &Shift, ext: bool, lost: bool) -> OwnBit
    ensures { (l : List Bus) → StandsFor shift.now l → IsReadable l
        → (slot : Bool) × (IsTrue slot ↔ IsAckDue l) × (result ≡ kind_of slot (is_early_stuff ext l) lost) }
{
    if shift.ack_is_due() {
        OwnBit::AckSlot
    } else if lost {
        OwnBit::LostArbitration
    } else if shift.is_early_stuff(ext) {
        OwnBit::StuffBeforeRtr
    } else {
        OwnBit::Other
    }
}

/// What is wrong with a bit for a transmitter: a bit error, a stuff error, or in the ACK slot an ACK error, which self
/// test doesn't know.
fn error_in(driven: Level, seen: Level, kind: OwnBit, self_test: bool) -> Option<Cause>
    ensures { result ≡ cause_of_bit driven seen kind self_test }
{
    match (driven, seen) {
        (Level::Dominant, Level::Dominant) => None,
        (Level::Dominant, Level::Recessive) => Some(Cause::Bit),
        (Level::Recessive, Level::Recessive) => match kind {
            OwnBit::AckSlot => if self_test { None } else { Some(Cause::Ack) },
            OwnBit::LostArbitration | OwnBit::StuffBeforeRtr | OwnBit::Other => None,
        },
        (Level::Recessive, Level::Dominant) => match kind {
            OwnBit::AckSlot | OwnBit::LostArbitration => None,
            OwnBit::StuffBeforeRtr => Some(Cause::Stuff),
            OwnBit::Other => Some(Cause::Bit),
        },
    }
}

/// A bit of a frame for its transmitter: the frame goes on, or it is sent with the last bit of EOF, or arbitration is
/// lost and the node goes on as receiver, or there is an error.
pub(crate) fn transmit(
    shift: &mut Shift,
    request: &Request,
    self_test: bool,
    lost: bool,
    driven: Level,
    seen: Level,
) -> AfterBit
    ensures stands { (l : List Bus) → StandsFor shift.old l → StandsFor shift.new (l ++ seen ∷ []) }
    ensures turn { TransmitsBit shift.old request.now self_test lost driven seen result }
{
    let kind = own_bit(shift, request.frame.ext(), lost);
    match error_in(driven, seen, kind, self_test) {
        Some(cause) => {
            let segment = shift.next_segment();
            shift.advance(seen);
            AfterBit::Ended(Ending::Fault {
                site: FaultSite::InTransmission,
                cause,
                segment,
            })
        }
        None => {
            shift.advance(seen);
            if shift.is_over() {
                AfterBit::Ended(Ending::Sent(request.copy()))
            } else {
                AfterBit::InPiece(Stage::InFrame)
            }
        }
    }
}
