//! One bit of a node: what it makes of the piece under way, by the node's stage.
ghost use Rattle.std.specs.Prelude.{◌≡◌, ◌&&◌, not};
ghost use Rattle.can_node.specs.Inside.Turns.{after_last_eof};

use super::after_bit::AfterBit;
use super::bus_integration::after_integration_bit;
use super::context::Context;
use super::delimiter::{after_delimiter_bit, is_eighth, is_first};
use super::ending::Ending;
use super::interframe_space::after_interframe_bit;
use super::node::Node;
use super::overload_condition::OverloadCondition;
use super::receive::receive;
use super::stage::Stage;
use super::transmit::transmit;
use can_bits::{KeptFrame, Shift};
use can_levels::Level;
use can_node_rules::{BUS_OFF, BitEvents, Role};

impl Node {
    ghost use Rattle.std.specs.Prelude.{◌≡◌, [], None, IsTrue};
    ghost use Rattle.can_node_rules.specs.declared.role.Role.TheVariants.{Receiver};
    ghost use Rattle.can_bits.specs.Shifts.{StandsFor};
    ghost use Rattle.can_node_rules.specs.Bits.{recessive_bit};
    ghost use Rattle.can_node_rules.specs.Pieces.{sent_at};
    ghost use Rattle.can_node_rules.specs.Pieces.Place.{AtIdle};
    ghost use Rattle.can_node_rules.specs.Driving.{Drives};
    ghost use Rattle.can_node.specs.Standing.{context_of, HasBody};
    ghost use Rattle.can_node.specs.Stands.{InReset, Samples};
    ghost use Rattle.can_node.specs.Stages.{At, IsReading};
    ghost use Rattle.can_node.specs.Inside.Turns.{IsTurn, TurnsFrom};

    /// Sees the level of the bus in this bit, as [`sample`](Node::sample) does, by the general way alone: for a bit
    /// that isn't quiet.
    pub fn sample_fully(&mut self, level: Level) -> BitEvents
        ensures samples { Samples self.old self.new level result }
        ensures off { IsTrue result.went_off → InReset self.new }
    {
        self.sample_fully_with(level, None)
    }

    /// The same, where several nodes see one level and there is room for a frame: one that is received may be kept
    /// there, and is given to the others that have read the same levels.
    #[inline(never)]
    pub fn sample_fully_with(&mut self, level: Level, room: Option<&mut KeptFrame>) -> BitEvents
        ensures samples { Samples self.old self.new level result }
        ensures off { IsTrue result.went_off → InReset self.new }
    {
        let driven = self.next;
        let lost = self.lost_arbitration(driven, level);
        let held = self.context.held.is_some();
        let off = self.context.counters.off;
        let loses = lost.is_some();
        let after = self.after_bit(level, loses, room);
        self.context.step_bit(self.stage, driven, level, loses);
        let sent = after.is_sent();
        self.go_to(&after);
        let receiving = !self.context.is_transmitter();
        let mut events = BitEvents::nothing(receiving);
        events.lost = lost;
        events.fault = after.fault();
        events.recovered = recovers(off, self.context.counters.off);
        events.went_off = self.context.counters.tec >= BUS_OFF;
        events.ended = self.ended(held, sent);
        events.received = after.received();
        self.go_off();
        self.next = self.next_level();
        events
    }

    /// What a bit makes of the piece under way, by the node's stage; arbitration is lost in it or not.
    fn after_bit(&mut self, seen: Level, lost: bool, room: Option<&mut KeptFrame>) -> AfterBit
        ensures kept { self.new ≡ record self.old { shift = self.new.shift } }
        ensures turn { TurnsFrom
            (λ c place bits. At self.old.stage self.old.shift c (context_of self.old.context) place bits)
            self.old self.new.shift self.old.next seen lost result }
    {
        match self.stage {
            Stage::InReset => AfterBit::InPiece(Stage::InReset),
            Stage::Integrating { left, run } => after_integration_bit(left, run, seen),
            Stage::BusIdle => self.after_idle_bit(seen),
            Stage::InFrame => self.after_frame_bit(seen, lost, room),
            Stage::LastEofBit => after_last_eof_bit(seen),
            Stage::InFlag { bits, last } => self.after_flag_bit(bits, last, seen),
            Stage::InDelimiter {
                dominant,
                recessive,
            } => after_delimiter_bit(dominant, recessive, seen),
            Stage::InInterframeSpace { bits } => {
                after_interframe_bit(bits, self.context.owes_suspension(), seen)
            }
        }
    }

    /// A bit where the bus is idle: it stays idle, or a frame begins with its SOF.
    fn after_idle_bit(&mut self, seen: Level) -> AfterBit
        ensures kept { self.new ≡ record self.old { shift = self.new.shift } }
        ensures turn { let now = context_of self.old.context in now.role ≡ Receiver
            → HasBody self.old.context self.old.body → Drives now AtIdle [] self.old.next
            → IsTurn self.new.shift now now AtIdle [] (record { driven = self.old.next; seen = seen }) result }
    {
        self.shift = Shift::new();
        match &self.context.held {
            Some(request) if !self.context.listen => {
                transmit(
                    &mut self.shift,
                    request,
                    self.context.self_test,
                    false,
                    self.next,
                    seen,
                )
            }
            _ => self.after_other_idle_bit(seen),
        }
    }

    /// The same where no frame of the node's own begins.
    fn after_other_idle_bit(&mut self, seen: Level) -> AfterBit
        ensures kept { self.new ≡ record self.old { shift = self.new.shift } }
        ensures turn { let now = context_of self.old.context in sent_at now AtIdle ≡ None → now.role ≡ Receiver
            → StandsFor self.old.shift []
            → IsTurn self.new.shift now now AtIdle [] (recessive_bit seen) result }
    {
        if seen.is_recessive() {
            AfterBit::Ended(Ending::IdleBit)
        } else {
            self.shift.advance(seen);
            AfterBit::InPiece(Stage::InFrame)
        }
    }

    /// A bit of a frame, after its SOF.
    fn after_frame_bit(&mut self, seen: Level, lost: bool, room: Option<&mut KeptFrame>) -> AfterBit
        ensures kept { self.new ≡ record self.old { shift = self.new.shift } }
        ensures turn { TurnsFrom (λ c place bits. IsReading self.old.shift c (context_of self.old.context) place bits)
            self.old self.new.shift self.old.next seen lost result }
    {
        match self.context.role {
            Role::Receiver => receive(&mut self.shift, self.next, seen, room),
            Role::Transmitter => match &self.context.held {
                Some(request) => {
                    transmit(
                        &mut self.shift,
                        request,
                        self.context.self_test,
                        lost,
                        self.next,
                        seen,
                    )
                }
                None => AfterBit::InPiece(Stage::InFrame),
            },
        }
    }
}

impl Context {
    ghost use Rattle.std.specs.Prelude.{◌≡◌, ◌<◌, List, is_some};
    ghost use Rattle.can_bits.specs.declared.shift.Shift.{Shift as Reader};
    ghost use Rattle.can_node_rules.specs.Bits.{Bit};
    ghost use Rattle.can_node_rules.specs.Context.{ContextValue};
    ghost use Rattle.can_node_rules.specs.Pieces.{Place};
    ghost use Rattle.can_node_rules.specs.Counting.{at_bit};
    ghost use Rattle.can_node_rules.specs.Events.{lost_in};
    ghost use Rattle.can_node.specs.Standing.{context_of};
    ghost use Rattle.can_node.specs.Stages.{At};

    /// The steps of the bit itself in counters, role and request, by the node's stage; arbitration is lost in it or
    /// not.
    fn step_bit(&mut self, stage: Stage, driven: Level, seen: Level, lost: bool)
        ensures { (reader : Reader) (c : ContextValue) (place : Place) (bits : List Bit)
            → At stage reader c (context_of self.old) place bits → self.old.counters.tec < 256
            → lost ≡ is_some (lost_in (context_of self.old) place bits (record { driven = driven; seen = seen }))
            → context_of self.new ≡ at_bit (context_of self.old) place bits (record { driven = driven; seen = seen }) }
    {
        match stage {
            Stage::Integrating { left: _, run } => self.integration_bit(run, seen),
            Stage::BusIdle => self.begin_own_frame(),
            Stage::InFrame => self.frame_bit(lost, driven, seen),
            Stage::InFlag { bits: _, last: _ } => self.flag_bit(seen),
            Stage::InDelimiter {
                dominant,
                recessive,
            } => {
                let first = is_first(dominant, recessive);
                self.delimiter_bit(first, is_eighth(dominant, recessive), seen);
            }
            Stage::InReset | Stage::LastEofBit | Stage::InInterframeSpace { bits: _ } => {}
        }
    }
}

/// The seventh bit of EOF of a received frame: a dominant level is an overload condition.
fn after_last_eof_bit(seen: Level) -> AfterBit
    ensures { result ≡ after_last_eof seen }
{
    match seen {
        Level::Dominant => AfterBit::Ended(Ending::Overload(OverloadCondition::LastEofBit)),
        Level::Recessive => AfterBit::Ended(Ending::LastEofBit),
    }
}

/// Whether bus-off stood and stands no more.
fn recovers(off: bool, still: bool) -> bool
    ensures { result ≡ (off && not still) }
{
    off && !still
}
