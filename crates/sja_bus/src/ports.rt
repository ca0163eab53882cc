//! What the port of a controller is told of a bit, and whether all ports are told.

ghost use Rattle.std.specs.Prelude.{◌≡◌, ◌≢◌, true, false};
ghost use Rattle.can_node_rules.specs.Outcomes.{nothing};
ghost use Rattle.sja_bus.specs.Inside.Turning.{SaysAs};
ghost use Rattle.sja_bus.specs.Inside.Rows.{AreTold};
ghost use Rattle.sja_bus.specs.Inside.RunningOn.{SomeUntold};

use super::activity::Activity;
use super::bit_outcome::BitOutcome;
use super::board::Board;
use super::bus_node::BusNode;
use super::pending_event::PendingEvent;
use can_node_rules::BitEvents;
use sja_regs::BusTurn;

impl BusNode {
    ghost use Rattle.std.specs.Prelude.{◌≡◌, ◌≢◌, ◌+◌, ◌<◌, ℕ, true, false};
    ghost use Rattle.sja_regs.specs.declared.bus_turn.BusTurn.{BusTurn as Turn};
    ghost use Rattle.sja_bus_rules.specs.Telling.{SaysAlone};
    ghost use Rattle.can_node_rules.specs.Outcomes.{nothing};
    ghost use Rattle.sja_link.specs.BusLedgers.{link_of};
    ghost use Rattle.sja_bus.specs.declared.pending_event.PendingEvent.TheVariants.{Nothing};
    ghost use Rattle.sja_bus.specs.Inside.Following.{open_in};
    ghost use Rattle.sja_bus.specs.Inside.Turning.{TellsTurn, TurnOf, is_dropped};
    ghost use Rattle.sja_bus.specs.Inside.BusNodes.{IsSound, IsBusNode};

    /// Tells the port what a bit brought, unless all was told and the bit brought nothing: `stands` is what stood
    /// before it. Nothing is left to be told. Answers whether the port was told.
    #[inline(always)]
    pub(crate) fn tell<B: Board>(
        &mut self,
        board: &mut B,
        outcome: BitOutcome,
        stands: &BusTurn,
    ) -> bool
        requires bus_node { IsBusNode self.old }
        requires sound { IsSound self.old }
        requires port { (link_of self.old.ledger).node < B.ports board.old }
        requires nothing { stands.now.events ≡ nothing stands.now.events.receiving }
        ensures bus_node { self.new ≡ record self.old { untold = Nothing } }
        ensures ports { B.ports board.new ≡ B.ports board.old }
        ensures others { (k : ℕ) → k ≢ (link_of self.old.ledger).node → B.kept board.old board.new k }
        ensures told { (turn : Turn) × TurnOf self.old outcome.events outcome.overrun turn
            × TellsTurn (B.told board.old board.new (link_of self.old.ledger).node) board.old board.new self.old
            stands.now result turn }
    {
        let turn = self.turn_of(outcome);
        if self.passes_over(&turn, stands) {
            return false;
        }
        board.bus_turn(self.number(), turn);
        self.untold = PendingEvent::Nothing;
        true
    }

    /// Whether all was told, and this turn says no more than what stood before.
    #[inline(always)]
    fn passes_over(&self, turn: &BusTurn, stands: &BusTurn) -> bool
        requires nothing { stands.now.events ≡ nothing stands.now.events.receiving }
        ensures yes { result ≡ true → (self.now.untold ≡ Nothing) × (turn.now ≡ stands.now) }
        ensures no { result ≡ false → self.now.untold ≡ Nothing → turn.now ≢ stands.now }
    {
        match self.untold {
            PendingEvent::Nothing => is_nothing(&turn.events) & says_as(turn, stands),
            _ => false,
        }
    }

    /// The turn that says what stands, and nothing else.
    pub(crate) fn stands(&self) -> BusTurn
        requires bus_node { IsBusNode self.now }
        requires sound { IsSound self.now }
        ensures alone { self.now.untold ≡ Nothing → SaysAlone self.now.journal.entries result }
        ensures nothing { result.events ≡ nothing result.events.receiving }
    {
        let receiving = !self.node.is_transmitter();
        self.turn_of(BitOutcome {
            events: BitEvents::nothing(receiving),
            overrun: false,
        })
    }

    /// What a bit brought, and how the node is after it.
    fn turn_of(&self, outcome: BitOutcome) -> BusTurn
        requires bus_node { IsBusNode self.now }
        requires follows { IsSound self.now }
        ensures { TurnOf self.now outcome.events outcome.overrun result }
    {
        let counters = self.node.counters();
        BusTurn {
            activation: self.activation(),
            events: outcome.events,
            txerr: counters.tec.min(255) as u8,
            rxerr: counters.rec,
            off: counters.off,
            phase: self.node.phase(),
            aborted: self.has_dropped(),
            overrun: outcome.overrun,
        }
    }

    /// The activation that the bus reads, counted from 1; between two the one that ended last.
    fn activation(&self) -> u64
        requires { IsBusNode self.now }
        ensures { result ≡ self.now.ended + open_in self.now.activity }
    {
        match self.activity {
            Activity::Between => self.ended,
            _ => self.ended + 1,
        }
    }

    /// Whether an abort dropped the request before this bit.
    fn has_dropped(&self) -> bool
        ensures { result ≡ is_dropped self.now.untold }
    {
        match self.untold {
            PendingEvent::Dropped => true,
            _ => false,
        }
    }
}

/// Whether these are the events of a bit in which nothing happened.
#[inline(always)]
fn is_nothing(events: &BitEvents) -> bool
    ensures yes { result ≡ true → events.now ≡ nothing events.now.receiving }
    ensures no { result ≡ false → events.now ≢ nothing events.now.receiving }
{
    let happened = events.received.is_some()
        | events.ended.is_some()
        | events.lost.is_some()
        | events.fault.is_some();
    !(happened | events.went_off | events.recovered)
}

/// Whether a turn says what another one says, beside the events.
#[inline(always)]
fn says_as(turn: &BusTurn, other: &BusTurn) -> bool
    ensures yes { result ≡ true → SaysAs turn.now other.now }
    ensures no { result ≡ false → turn.now ≢ other.now }
{
    let counters = (turn.txerr == other.txerr)
        & (turn.rxerr == other.rxerr)
        & (turn.off == other.off);
    let role = turn.events.receiving == other.events.receiving;
    let ends = (turn.aborted == other.aborted) & (turn.overrun == other.overrun);
    counters & role & ends & (turn.activation == other.activation) & (turn.phase == other.phase)
}

/// Whether no port is to be told anything.
pub(crate) fn are_told(bus_nodes: &[BusNode]) -> bool
    ensures yes { result ≡ true → AreTold bus_nodes.now }
    ensures no { result ≡ false → SomeUntold bus_nodes.now }
{
    for k in 0..bus_nodes.len() {
        let PendingEvent::Nothing = bus_nodes[k].untold else {
            return false;
        };
    }
    true
}
