//! Bus integration: a node that starts waits for the bus (Bosch CAN 2.0 part A section 7, ISO 11898-1).
ghost use Rattle.std.specs.Prelude.{List};
ghost use Rattle.can_node_rules.specs.Bits.{Bit, recessive_bit};
ghost use Rattle.can_node_rules.specs.Context.{ContextValue};
ghost use Rattle.can_node_rules.specs.Pieces.Place.{AtIntegration};
ghost use Rattle.can_node_rules.specs.UnfinishedPieces.{IsIntegrating};
ghost use Rattle.can_node.specs.Inside.Turns.{IsTurn};

use super::after_bit::AfterBit;
use super::ending::Ending;
use super::stage::Stage;
use can_bits::Shift;
use can_levels::Level;

/// The last of eleven successive recessive levels has this number, from 0.
const LAST_OF_ELEVEN: u8 = 10;

/// A bit while the bus is waited for: eleven successive recessive levels, so many times; a dominant one begins the
/// present eleven anew.
pub(crate) fn after_integration_bit(left: u8, run: u8, seen: Level) -> AfterBit
    ensures { (shift : Shift) (c now : ContextValue) (bits : List Bit) → IsIntegrating left run c bits
        → IsTurn shift c now AtIntegration bits (recessive_bit seen) result }
{
    match seen {
        Level::Dominant => AfterBit::InPiece(Stage::Integrating { left, run: 0 }),
        Level::Recessive => {
            if run < LAST_OF_ELEVEN {
                AfterBit::InPiece(Stage::Integrating { left, run: run + 1 })
            } else if left > 1 {
                AfterBit::InPiece(Stage::Integrating {
                    left: left - 1,
                    run: 0,
                })
            } else {
                AfterBit::Ended(Ending::Integration)
            }
        }
    }
}
