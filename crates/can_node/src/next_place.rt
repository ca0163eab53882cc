//! What follows a bit: the piece goes on, or ends and leads to the next place, or bus-off comes.
use super::after_bit::AfterBit;
use super::context::Context;
use super::ending::Ending;
use super::node::Node;
use super::stage::Stage;
use can_bits::Shift;
use can_levels::Level;
use can_node_rules::{BUS_OFF, FlagKind, Role};

/// At the beginning of a flag.
const FLAG: Stage = Stage::InFlag {
    bits: 0,
    last: Level::Recessive,
};

/// At the beginning of interframe space.
const INTERFRAME_SPACE: Stage = Stage::InInterframeSpace { bits: 0 };

impl Node {
    ghost use Rattle.std.specs.Prelude.{◌≡◌, ◌<◌, ◌≤◌, ◌++◌, ◌∷◌, [], List};
    ghost use Rattle.can_node.specs.declared.stage.Stage.TheVariants.{InReset as StageInReset};
    ghost use Rattle.can_node_rules.specs.Bits.{Bit};
    ghost use Rattle.can_node_rules.specs.Context.{ContextValue};
    ghost use Rattle.can_node_rules.specs.Pieces.{Place};
    ghost use Rattle.can_node_rules.specs.Pieces.Place.{AfterSof};
    ghost use Rattle.can_node_rules.specs.Pieces.Piece.{InterframeSpaceWithSof};
    ghost use Rattle.can_node_rules.specs.Counting.{at_bit};
    ghost use Rattle.can_node_rules.specs.Effects.{closed};
    ghost use Rattle.can_node.specs.Standing.{context_of, HasBody};
    ghost use Rattle.can_node.specs.Stages.{At};
    ghost use Rattle.can_node.specs.Inside.Turns.{next_of, piece_of, IsTurn, resulted, AtAfter, off_if};

    /// Stands in the piece under way, or at the place after it.
    pub(crate) fn go_to(&mut self, after: &AfterBit)
        ensures body { self.new.body ≡ self.old.body }
        ensures context { self.old.context.counters.tec < 900
            → context_of self.new.context ≡ resulted after.now (context_of self.old.context) }
        ensures at { (c now : ContextValue) (place : Place) (bits : List Bit) (b : Bit)
            → self.old.context.counters.tec < 900
            → HasBody self.old.context self.old.body
            → context_of self.old.context ≡ at_bit now place bits b → IsTurn self.old.shift c now place bits b after.now
            → AtAfter after.now self.new.stage self.new.shift c (context_of self.new.context) place (bits ++ b ∷ []) }
    {
        match after {
            AfterBit::InPiece(stage) => self.stage = *stage,
            AfterBit::Ended(ending) => {
                self.context.end_piece(ending);
                self.begin_place(ending);
            }
        }
    }

    /// Stands at the beginning of the place after a piece.
    #[tactic(auto, using(crate::proofs::Waiting::Beginnings::beginnings))]
    fn begin_place(&mut self, ending: &Ending)
        ensures kept { self.new ≡ record self.old { stage = self.new.stage; shift = self.new.shift } }
        ensures at { (before : ContextValue) → HasBody self.old.context self.old.body
            → context_of self.old.context ≡ closed (piece_of ending.now) (next_of ending.now) before
            → At self.new.stage self.new.shift (context_of self.new.context) (context_of self.new.context)
            (next_of ending.now) [] }
    {
        match ending {
            Ending::Integration => self.stage = Stage::BusIdle,
            Ending::IdleBit => self.stage = Stage::BusIdle,
            Ending::InterframeSpace => self.stage = Stage::BusIdle,
            Ending::Received(_) => self.stage = Stage::LastEofBit,
            Ending::Sent(_) => self.stage = INTERFRAME_SPACE,
            Ending::LastEofBit => self.stage = INTERFRAME_SPACE,
            Ending::Delimiter => self.stage = INTERFRAME_SPACE,
            Ending::Fault {
                site: _,
                cause: _,
                segment: _,
            } => self.stage = FLAG,
            Ending::Overload(_) => self.stage = FLAG,
            Ending::Flag => self.stage = Stage::InDelimiter {
                dominant: 0,
                recessive: 0,
            },
            Ending::Sof => self.begin_frame(),
        }
    }

    /// A frame began with the last bit of interframe space: its SOF.
    fn begin_frame(&mut self)
        ensures kept { self.new ≡ record self.old { stage = self.new.stage; shift = self.new.shift } }
        ensures reads { (before : ContextValue) → HasBody self.old.context self.old.body
            → context_of self.old.context ≡ closed InterframeSpaceWithSof AfterSof before
            → At self.new.stage self.new.shift (context_of self.new.context) (context_of self.new.context) AfterSof [] }
    {
        self.shift = Shift::new();
        self.shift.advance(Level::Dominant);
        self.stage = Stage::InFrame;
    }

    /// Where TEC has come to 256 the node goes bus-off.
    pub(crate) fn go_off(&mut self)
        ensures body { self.new.body ≡ self.old.body }
        ensures context { context_of self.new.context ≡ off_if (context_of self.old.context) }
        ensures on { self.old.context.counters.tec < 256 → self.new ≡ self.old }
        ensures off { 256 ≤ self.old.context.counters.tec → self.new.stage ≡ StageInReset }
    {
        if self.context.counters.tec >= BUS_OFF {
            self.context.go_off();
            self.stage = Stage::InReset;
        }
    }
}

impl Context {
    ghost use Rattle.std.specs.Prelude.{◌≡◌, ◌<◌};
    ghost use Rattle.can_node_rules.specs.Context.{ContextValue};
    ghost use Rattle.can_node_rules.specs.Effects.{closed, error_flag, entering};
    ghost use Rattle.can_node.specs.Standing.{context_of};
    ghost use Rattle.can_node.specs.Inside.Turns.{piece_of, next_of};

    /// The end of a piece: its own step, and what the next place sets.
    fn end_piece(&mut self, ending: &Ending)
        ensures { self.old.counters.tec < 900
            → context_of self.new ≡ closed (piece_of ending.now) (next_of ending.now) (context_of self.old) }
    {
        let flag = self.error_flag();
        self.end_step(ending);
        self.set_for_next_place(ending, flag);
    }

    /// The error flag that an error would lead to: active where both counters are below 128.
    fn error_flag(&self) -> FlagKind
        ensures { result ≡ error_flag (context_of self.now) }
    {
        if self.is_passive() {
            FlagKind::PassiveError
        } else {
            FlagKind::ActiveError
        }
    }

    /// What the next place sets: the role, or the kind of its flag.
    fn set_for_next_place(&mut self, ending: &Ending, kind: FlagKind)
        ensures { (before : ContextValue) → kind ≡ error_flag before
            → context_of self.new ≡ entering (next_of ending.now) (piece_of ending.now) before (context_of self.old) }
    {
        match ending {
            Ending::Integration | Ending::IdleBit | Ending::InterframeSpace => self.role =
                Role::Receiver,
            Ending::Sof => self.role = self.role_after_sof(),
            Ending::Fault {
                site: _,
                cause: _,
                segment: _,
            } => self.flag = kind,
            Ending::Overload(_) => self.flag = FlagKind::Overload,
            Ending::Received(_)
            | Ending::Sent(_)
            | Ending::LastEofBit
            | Ending::Flag
            | Ending::Delimiter => {}
        }
    }
}
