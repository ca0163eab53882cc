//! What a node drives.
use super::node::Node;
use super::stage::Stage;
use can_levels::Level;
use can_node_rules::Role;

impl Node {
    ghost use Rattle.std.specs.Prelude.{List};
    ghost use Rattle.can_levels.specs.declared.level.Level.{Level as Bus};
    ghost use Rattle.can_bits.specs.Shifts.{StandsFor};
    ghost use Rattle.can_node_rules.specs.Bits.{Bit};
    ghost use Rattle.can_node_rules.specs.Context.{ContextValue};
    ghost use Rattle.can_node_rules.specs.Pieces.{Place};
    ghost use Rattle.can_node_rules.specs.Frames.{Acknowledges};
    ghost use Rattle.can_node_rules.specs.Driving.{Drives};
    ghost use Rattle.can_node.specs.Standing.{context_of, HasBody};
    ghost use Rattle.can_node_rules.specs.KeptContexts.{IsKept};
    ghost use Rattle.can_node.specs.Stages.{At, IsReading};

    /// The level that the node drives in the next bit.
    #[inline(always)]
    pub(crate) fn next_level(&self) -> Level
        ensures { (c : ContextValue) (place : Place) (bits : List Bit)
            → At self.now.stage self.now.shift c (context_of self.now.context) place bits
            → IsKept place c (context_of self.now.context) → HasBody self.now.context self.now.body
            → Drives (context_of self.now.context) place bits result }
    {
        match self.stage {
            Stage::BusIdle => {
                if self.context.sends() {
                    Level::Dominant
                } else {
                    Level::Recessive
                }
            }
            Stage::InFrame => self.level_in_frame(),
            Stage::InFlag { bits: _, last: _ } => self.context.flag_level(),
            _ => Level::Recessive,
        }
    }

    /// The level that it drives in a frame: the next one of its line, or its acknowledgement.
    fn level_in_frame(&self) -> Level
        ensures { (c : ContextValue) (place : Place) (bits : List Bit)
            → IsReading self.now.shift c (context_of self.now.context) place bits
            → IsKept place c (context_of self.now.context) → HasBody self.now.context self.now.body
            → Drives (context_of self.now.context) place bits result }
    {
        match self.context.role {
            Role::Transmitter => self.shift.next_of(&self.body),
            Role::Receiver => self.acknowledgement(),
        }
    }

    /// What a receiver drives in a frame: dominant in the ACK slot after a right CRC sequence, if it doesn't only
    /// listen.
    pub(crate) fn acknowledgement(&self) -> Level
        ensures { (l : List Bus) → StandsFor self.now.shift l → Acknowledges self.now.context.listen l result }
    {
        let due = self.shift.ack_is_due();
        if due && !self.context.listen {
            Level::Dominant
        } else {
            Level::Recessive
        }
    }
}
