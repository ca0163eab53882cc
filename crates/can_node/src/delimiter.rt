//! Error delimiters and overload delimiters: what ends an error frame or overload frame after its flag (Bosch CAN 2.0
//! part A sections 3.1.3 and 3.1.4).
ghost use Rattle.std.specs.Prelude.{◌≡◌, ◌==◌, ◌&&◌, List};
ghost use Rattle.can_node_rules.specs.Bits.{Bit, recessive_bit};
ghost use Rattle.can_node_rules.specs.Context.{ContextValue};
ghost use Rattle.can_node_rules.specs.Pieces.Place.{AtDelimiter};
ghost use Rattle.can_node_rules.specs.UnfinishedPieces.{IsInDelimiter};
ghost use Rattle.can_node.specs.Inside.Turns.{IsTurn};

use super::after_bit::AfterBit;
use super::ending::Ending;
use super::overload_condition::OverloadCondition;
use super::stage::Stage;
use can_bits::Shift;
use can_levels::{Level, Segment};
use can_node_rules::{Cause, FaultSite};

/// How many recessive levels of a delimiter come before its last.
const BEFORE_LAST: u8 = 7;

/// A bit after a flag: dominant levels of others' flags, and then eight recessive ones; a dominant level at the eighth
/// is an overload condition, and one before it a form error.
pub(crate) fn after_delimiter_bit(dominant: u8, recessive: u8, seen: Level) -> AfterBit
    ensures { (shift : Shift) (c now : ContextValue) (bits : List Bit) → IsInDelimiter dominant recessive bits
        → IsTurn shift c now AtDelimiter bits (recessive_bit seen) result }
{
    match seen {
        Level::Dominant => {
            if recessive == 0 {
                AfterBit::InPiece(Stage::InDelimiter {
                    dominant: dominant % 8 + 1,
                    recessive: 0,
                })
            } else if recessive < BEFORE_LAST {
                AfterBit::Ended(Ending::Fault {
                    site: FaultSite::InDelimiter,
                    cause: Cause::Form,
                    segment: Segment::Delimiter,
                })
            } else {
                AfterBit::Ended(Ending::Overload(OverloadCondition::LastDelimiterBit))
            }
        }
        Level::Recessive => {
            if recessive < BEFORE_LAST {
                AfterBit::InPiece(Stage::InDelimiter {
                    dominant,
                    recessive: recessive + 1,
                })
            } else {
                AfterBit::Ended(Ending::Delimiter)
            }
        }
    }
}

/// Whether no bit came after the flag.
pub(crate) fn is_first(dominant: u8, recessive: u8) -> bool
    ensures { result ≡ (dominant == 0 && recessive == 0) }
{
    dominant == 0 && recessive == 0
}

/// Whether a dominant level makes eight, sixteen .. of them, none other among them.
pub(crate) fn is_eighth(dominant: u8, recessive: u8) -> bool
    ensures { result ≡ (recessive == 0 && dominant == 7) }
{
    recessive == 0 && dominant == 7
}
