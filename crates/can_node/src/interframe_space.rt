//! Interframe space: intermission, and suspend transmission where it is owed (Bosch CAN 2.0 part A section 3.1.5).
ghost use Rattle.std.specs.Prelude.{◌≡◌, List};
ghost use Rattle.can_node_rules.specs.Bits.{Bit, recessive_bit};
ghost use Rattle.can_node_rules.specs.Context.{ContextValue, owes_suspension};
ghost use Rattle.can_node_rules.specs.Pieces.Place.{AtInterframeSpace};
ghost use Rattle.can_node_rules.specs.UnfinishedPieces.{IsInInterframeSpace};
ghost use Rattle.can_node.specs.Inside.Turns.{IsTurn};

use super::after_bit::AfterBit;
use super::ending::Ending;
use super::overload_condition::OverloadCondition;
use super::stage::Stage;
use can_bits::Shift;
use can_levels::Level;

/// The last bit of intermission has this number, from 0; a dominant level there is SOF.
const LAST_OF_INTERMISSION: u8 = 2;
/// The same with the eight bits of suspend transmission after it.
const LAST_OF_SUSPENSION: u8 = 10;

/// A bit of interframe space: three recessive levels, eleven where suspend transmission is owed; a dominant first or
/// second level is an overload condition, and a later one SOF.
pub(crate) fn after_interframe_bit(bits: u8, owed: bool, seen: Level) -> AfterBit
    ensures { (shift : Shift) (c now : ContextValue) (done : List Bit) → owed ≡ owes_suspension c
        → IsInInterframeSpace bits c done
        → IsTurn shift c now AtInterframeSpace done (recessive_bit seen) result }
{
    let last = if owed {
        LAST_OF_SUSPENSION
    } else {
        LAST_OF_INTERMISSION
    };
    match seen {
        Level::Dominant => {
            if bits < LAST_OF_INTERMISSION {
                AfterBit::Ended(Ending::Overload(OverloadCondition::Intermission))
            } else {
                AfterBit::Ended(Ending::Sof)
            }
        }
        Level::Recessive => {
            if bits < last {
                AfterBit::InPiece(Stage::InInterframeSpace { bits: bits + 1 })
            } else {
                AfterBit::Ended(Ending::InterframeSpace)
            }
        }
    }
}
