//! Error flags and overload flags (Bosch CAN 2.0 part A sections 3.1.3 and 3.1.4).
ghost use Rattle.std.specs.Prelude.{◌≡◌, List};
ghost use Rattle.can_levels.specs.declared.level.Level.TheVariants.{Dominant, Recessive};
ghost use Rattle.can_node_rules.specs.Bits.{Bit, recessive_bit, dominant_bit};
ghost use Rattle.can_node_rules.specs.Context.{ContextValue, flag_level};
ghost use Rattle.can_node_rules.specs.Pieces.Place.{AtFlag};
ghost use Rattle.can_node_rules.specs.UnfinishedPieces.{IsInDominantFlag, IsInPassiveFlag};
ghost use Rattle.can_node_rules.specs.Table.{flag_segment};
ghost use Rattle.can_node.specs.Inside.Turns.{IsTurn, one_more};

use super::after_bit::AfterBit;
use super::ending::Ending;
use super::node::Node;
use super::stage::Stage;
use can_bits::Shift;
use can_levels::{Level, Segment};
use can_node_rules::{Cause, FaultSite, FlagKind};

/// How many bits of an active error flag or overload flag come before its last; of a passive error flag, how many equal
/// levels.
const BEFORE_LAST: u8 = 5;

/// The segment of an error within a flag (SJA1000 data sheet, 6.4.9, error code capture).
fn segment_of(kind: FlagKind) -> Segment
    ensures { result ≡ flag_segment kind }
{
    match kind {
        FlagKind::ActiveError | FlagKind::PassiveError => Segment::ActiveErrorFlag,
        FlagKind::Overload => Segment::OverloadFlag,
    }
}

/// One more of so many equal levels: the flag goes on, or it was the sixth.
fn one_more(bits: u8, seen: Level) -> AfterBit
    ensures { result ≡ one_more bits seen }
{
    if bits < BEFORE_LAST {
        AfterBit::InPiece(Stage::InFlag {
            bits: bits + 1,
            last: seen,
        })
    } else {
        AfterBit::Ended(Ending::Flag)
    }
}

/// A bit of an active error flag or overload flag, of which so many came: six of them are a flag, and a recessive level
/// is a bit error.
pub(crate) fn after_dominant_flag_bit(kind: FlagKind, bits: u8, seen: Level) -> AfterBit
    ensures { (shift : Shift) (c now : ContextValue) (done : List Bit) → flag_level c ≡ Dominant → kind ≡ c.flag
        → IsInDominantFlag bits c done
        → IsTurn shift c now AtFlag done (dominant_bit seen) result }
{
    match seen {
        Level::Dominant => { one_more(bits, seen) }
        Level::Recessive => AfterBit::Ended(Ending::Fault {
            site: FaultSite::InFlag,
            cause: Cause::Bit,
            segment: segment_of(kind),
        }),
    }
}

/// A bit of a passive error flag, which ends with six equal levels; so many like this one came. Any flag of a node that
/// only listens goes so.
pub(crate) fn after_passive_flag_bit(bits: u8, last: Level, seen: Level) -> AfterBit
    ensures { (shift : Shift) (c now : ContextValue) (done : List Bit) → flag_level c ≡ Recessive
        → IsInPassiveFlag bits last c done
        → IsTurn shift c now AtFlag done (recessive_bit seen) result }
{
    if seen == last {
        one_more(bits, seen)
    } else {
        one_more(0, seen)
    }
}

impl Node {
    ghost use Rattle.std.specs.Prelude.{◌≡◌, List};
    ghost use Rattle.can_levels.specs.declared.level.Level.{Level as Bus};
    ghost use Rattle.can_bits.specs.declared.shift.Shift.{Shift as Reader};
    ghost use Rattle.can_node.specs.Standing.{context_of};
    ghost use Rattle.can_node_rules.specs.KeptContexts.{IsKept};
    ghost use Rattle.can_node_rules.specs.UnfinishedPieces.{IsInFlag};

    /// A bit of a flag, by the level that the node drives in it.
    pub(crate) fn after_flag_bit(&self, bits: u8, last: Level, seen: Level) -> AfterBit
        ensures { (shift : Reader) (c : ContextValue) (done : List Bit) (driven : Bus)
            → IsInFlag (flag_level c) bits last c done
            → IsKept AtFlag c (context_of self.now.context) → driven ≡ flag_level (context_of self.now.context)
            → IsTurn shift c (context_of self.now.context) AtFlag done
            (record { driven = driven; seen = seen }) result }
    {
        match self.context.flag_level() {
            Level::Dominant => after_dominant_flag_bit(self.context.flag, bits, seen),
            Level::Recessive => after_passive_flag_bit(bits, last, seen),
        }
    }
}
