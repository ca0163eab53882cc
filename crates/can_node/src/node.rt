//! [`Node`]: a CAN node, bit by bit.

use super::after_bit::AfterBit;
use super::context::Context;
use super::stage::Stage;
use can_bits::{SentBody, Shift};
use can_levels::Level;
use can_node_rules::{AbortOutcome, BitEvents, Config, Counters, Outcome, Phase, Request};

/// A CAN node, bit by bit: what it drives, and what it makes of the levels that it sees (Bosch CAN 2.0 part A).
///
/// It keeps no list of levels and takes no memory. It stands at records: lists of what happened to it, each bit with
/// the level driven and the level seen, and each such record is cut into pieces as the rules of the bus have it.
#[derive(Debug, Drop)]
pub struct Node {
    pub(crate) context: Context,
    pub(crate) stage: Stage,
    pub(crate) shift: Shift,
    /// The packed body of the request that is held, or was held last.
    pub(crate) body: SentBody,
    /// The level that the node drives in the next bit.
    pub(crate) next: Level,
}

impl Node {
    ghost use Rattle.std.specs.Prelude.{◌≡◌, ◌<◌, ◌↔◌, [], List, IsTrue};
    ghost use Rattle.can_node_rules.specs.Record.{RecordEntry};
    ghost use Rattle.can_node_rules.specs.Bits.{Bit};
    ghost use Rattle.can_node_rules.specs.Context.{ContextValue};
    ghost use Rattle.can_node_rules.specs.Pieces.{Place};
    ghost use Rattle.can_node_rules.specs.Effects.{is_in_progress};
    ghost use Rattle.can_node.specs.Standing.{context_of};
    ghost use Rattle.can_node.specs.Stages.{At};
    ghost use Rattle.can_node_rules.specs.Cut.{FinishedPiece};
    ghost use Rattle.can_node.specs.Stands.{StandsAt, InReset, Enters, DrivesNext, Samples, StaysReset};
    ghost use Rattle.can_node.specs.Stands.{ShowsPhase, ShowsCounters, ShowsRest, Requests, Aborts};

    /// A node in reset, to which nothing has happened.
    pub fn new() -> Node
        ensures stands { StandsAt result [] [] }
        ensures reset { InReset result }
    {
        Node {
            context: Context::new(),
            stage: Stage::InReset,
            shift: Shift::new(),
            body: SentBody::empty(),
            next: Level::Recessive,
        }
    }

    /// Leaves reset with this configuration, and waits for the bus. The node has to be in reset.
    pub fn start(&mut self, config: Config)
        requires reset { InReset self.old }
        ensures { Enters self.old self.new (RecordEntry.Start config) }
    {
        self.context.start(&config);
        self.stage = Stage::Integrating {
            left: self.context.integration_count(),
            run: 0,
        };
        self.next = Level::Recessive;
    }

    /// Enters reset at once. The request is dropped, and the error counters stay.
    pub fn stop(&mut self)
        ensures enters { Enters self.old self.new RecordEntry.Stop }
        ensures reset { InReset self.new }
    {
        self.context.stop();
        self.next = Level::Recessive;
        self.stage = Stage::InReset;
    }

    /// The level that the node drives in the next bit.
    #[inline(always)]
    pub fn drive(&self) -> Level
        ensures { DrivesNext self.now result }
    {
        self.next
    }

    /// Sees the level of the bus in this bit, in which the node drove what [`drive`](Node::drive) says; in reset it
    /// looks at no level. A caller for whom a bit without events is no more than that calls
    /// [`sample_quietly`](Node::sample_quietly) first, and [`sample_fully`](Node::sample_fully) where that one answers
    /// false.
    pub fn sample(&mut self, level: Level) -> BitEvents
        ensures samples { Samples self.old self.new level result }
        ensures off { IsTrue result.went_off → InReset self.new }
        ensures rests { StaysReset self.old self.new result }
    {
        if self.sample_quietly(level) {
            BitEvents::nothing(!self.context.is_transmitter())
        } else {
            self.sample_fully(level)
        }
    }

    /// Takes a request, to be sent as soon as the bus is idle. It is given back where one is held, or in reset.
    #[inline(always)]
    pub fn request(&mut self, request: Request) -> Result<(), Request>
        ensures { Requests self.old self.new request result }
    {
        if self.context.held.is_some() {
            return Err(request);
        }
        if let Stage::InReset = self.stage {
            return Err(request);
        }
        self.body = SentBody::of(&request.frame);
        self.context.held = Some(request);
        self.next = self.next_level();
        Ok(())
    }

    /// Aborts the request that is held: one in progress is marked, and dropped where it fails or loses arbitration, and
    /// any other is dropped at once.
    pub fn abort(&mut self) -> AbortOutcome
        ensures { Aborts self.old self.new result }
    {
        match &self.context.held {
            None => AbortOutcome::Unchanged,
            Some(_) => {
                if !self.is_in_progress() {
                    self.context.held = None;
                    self.next = self.next_level();
                    AbortOutcome::Dropped
                } else if self.context.drops() {
                    AbortOutcome::Unchanged
                } else {
                    self.context.aborted = true;
                    self.next = self.next_level();
                    AbortOutcome::Marked
                }
            }
        }
    }

    /// Whether an own frame is going out.
    fn is_in_progress(&self) -> bool
        ensures { (c : ContextValue) (place : Place) (bits : List Bit)
            → At self.now.stage self.now.shift c (context_of self.now.context) place bits
            → result ≡ is_in_progress (context_of self.now.context) place }
    {
        match self.stage {
            Stage::InFrame => self.context.is_transmitter(),
            _ => false,
        }
    }

    /// The error counters, as the cut of the record gives them: there is one alone
    /// ([`a_record_has_one_cut`](super::laws)). The transmit error counter is below 256.
    pub fn counters(&self) -> Counters
        ensures counts { ShowsCounters self.now result }
        ensures below { (entries : List RecordEntry) (found : List FinishedPiece) → StandsAt self.now entries found
            → result.tec < 256 }
    {
        self.context.counters
    }

    /// Where the node is with its next bit.
    pub fn phase(&self) -> Phase
        ensures phase { ShowsPhase self.now result }
        ensures reset { (result ≡ Phase.Reset) ↔ InReset self.now }
    {
        self.stage.phase()
    }

    /// Whether nothing is to come of its own accord: the node is in reset, or the bus is idle and no request is held.
    pub fn at_rest(&self) -> bool
        ensures { ShowsRest self.now result }
    {
        match self.phase() {
            Phase::Reset => true,
            Phase::Idle => self.context.held.is_none(),
            _ => false,
        }
    }
}
