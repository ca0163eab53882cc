//! Lost arbitration (Bosch CAN 2.0 part A section 3.1.1).
use super::context::Context;
use super::node::Node;
use super::stage::Stage;
use can_levels::Level;
use can_node_rules::Role;

impl Node {
    ghost use Rattle.std.specs.Prelude.{◌≡◌, List};
    ghost use Rattle.can_node_rules.specs.Bits.{Bit};
    ghost use Rattle.can_node_rules.specs.Context.{ContextValue};
    ghost use Rattle.can_node_rules.specs.Pieces.{Place};
    ghost use Rattle.can_node_rules.specs.Events.{lost_in};
    ghost use Rattle.can_node.specs.Standing.{context_of};
    ghost use Rattle.can_node_rules.specs.KeptContexts.{IsKept};
    ghost use Rattle.can_node.specs.Stages.{At, IsReading};

    /// The place code where a transmitter loses arbitration in this bit (SJA1000 data sheet, 6.4.8).
    pub(crate) fn lost_arbitration(&self, driven: Level, seen: Level) -> Option<u8>
        ensures { (c : ContextValue) (place : Place) (bits : List Bit)
            → At self.now.stage self.now.shift c (context_of self.now.context) place bits
            → IsKept place c (context_of self.now.context)
            → result ≡ lost_in (context_of self.now.context) place bits (record { driven = driven; seen = seen }) }
    {
        match self.stage {
            Stage::InFrame => self.lost_in_frame(driven, seen),
            _ => None,
        }
    }

    /// The same in a frame: a transmitter drives recessive and sees dominant in the arbitration field, at no stuff bit.
    fn lost_in_frame(&self, driven: Level, seen: Level) -> Option<u8>
        ensures { (c : ContextValue) (place : Place) (bits : List Bit)
            → IsReading self.now.shift c (context_of self.now.context) place bits
            → result ≡ lost_in (context_of self.now.context) place bits (record { driven = driven; seen = seen }) }
    {
        match self.context.role {
            Role::Receiver => None,
            Role::Transmitter => match &self.context.held {
                None => None,
                Some(request) => {
                    if driven.is_recessive() && !seen.is_recessive() {
                        self.shift.place_code(request.frame.ext())
                    } else {
                        None
                    }
                }
            },
        }
    }
}

impl Context {
    ghost use Rattle.std.specs.Prelude.{◌≡◌, List, is_some};
    ghost use Rattle.can_levels.specs.declared.level.Level.{Level as Bus};
    ghost use Rattle.can_node_rules.specs.declared.role.Role.TheVariants.{Transmitter};
    ghost use Rattle.can_node_rules.specs.Counting.{frame_bit, lost_by, lose};
    ghost use Rattle.can_node.specs.Standing.{context_of};

    /// A bit of a frame, in which arbitration was lost or not: who loses goes on as receiver, and a receiver may have
    /// acknowledged.
    pub(crate) fn frame_bit(&mut self, lost: bool, driven: Level, seen: Level)
        ensures { (l : List Bus) → (self.old.role ≡ Transmitter → lost ≡ is_some (lost_by self.old.held l driven seen))
            → context_of self.new
            ≡ frame_bit self.old.role (context_of self.old) l (record { driven = driven; seen = seen }) }
    {
        match self.role {
            Role::Transmitter => {
                if lost {
                    self.lose();
                }
            }
            Role::Receiver => self.acknowledged(driven, seen),
        }
    }

    /// Loses arbitration: the node is receiver of the same frame, and a single shot request is dropped.
    fn lose(&mut self)
        ensures { context_of self.new ≡ lose (context_of self.old) }
    {
        self.drop_failed();
        self.role = Role::Receiver;
    }
}
