//! What a bit of the bus changes.

ghost use Rattle.std.specs.Prelude.{◌≡◌, ◌↔◌, not, is_some, true, false};
ghost use Rattle.sja_regs.specs.Interrupting.{pending_after};
ghost use Rattle.sja_regs.specs.Turns.{is_live, is_sent, may_tell, stands_still, follows_node, code_of_fault};
ghost use Rattle.sja_regs.specs.Turns.{after_turn};
ghost use Rattle.sja_regs.specs.Preservation.{OnlyEnabled, HasLeft, KeepsActivation, BringsNoNews, SaysTheSame};
ghost use Rattle.sja_regs.specs.Inside.TurnParts.{with_role, with_counters, with_news, HasCounted};
ghost use Rattle.sja_regs.specs.Inside.TurnParts.{activity, with_captures, after_settling};

use super::bus_turn::BusTurn;
use super::capture::Capture;
use super::interrupts::Interrupts;
use super::port::Port;
use super::registers::Registers;
use can_levels::Segment;
use can_node_rules::{BitEvents, Cause, Outcome, Phase, error_code};

impl Port {
    /// Takes what one bit of the bus brought.
    ///
    /// In reset mode, or where the turn is of an activation that was left, the driver's transmission and what was
    /// captured stay as they are: RM, TBS, TCS, DOS, ALC, ECC and the interrupts TI, DOI, ALI and BEI. A turn that
    /// brings nothing and says what the port shows already changes nothing.
    #[tactic(auto, using(crate::proofs::BusTurns::TurnLemmas::whole_turn))]
    pub fn bus_turn(&mut self, turn: &BusTurn)
        ensures turn { self.new ≡ after_turn self.old turn.now }
        ensures enabled { OnlyEnabled self.old self.new }
        ensures kept { HasLeft self.old turn.now → KeepsActivation self.old self.new }
        ensures same { SaysTheSame self.old turn.now → self.new ≡ self.old }
    {
        self.follow(turn);
        self.count(turn);
        if brings_news(turn) {
            self.take_news(turn);
        }
    }

    /// What the turn brought to its activation, where that is the present one and goes on.
    fn take_news(&mut self, turn: &BusTurn)
        ensures { self.new ≡ with_news self.old turn.now }
    {
        if self.registers.is_live(turn) {
            let activity = self.registers.activity(turn);
            self.raise(activity);
            self.capture(&turn.events);
            self.settle(turn);
        }
    }

    /// The interrupts that have a cause are pending, where they are enabled.
    pub(crate) fn raise(&mut self, causes: Interrupts)
        requires { (causes.wui ≡ false) × (causes.ri ≡ false) }
        ensures pending { self.new
            ≡ record self.old { pending = pending_after self.old.pending self.old.enabled causes } }
        ensures enabled { OnlyEnabled self.old self.new }
    {
        self.registers.pending = self
            .registers
            .pending
            .raised(self.registers.enabled, causes);
    }

    /// RS and TS, which are the node's in every turn, but where they stand still.
    fn follow(&mut self, turn: &BusTurn)
        ensures { self.new ≡ with_role self.old turn.now }
    {
        let receiving = turn.events.receiving;
        let (rs, ts) = match turn.phase {
            Phase::Reset | Phase::Waiting => (true, true),
            Phase::Frame | Phase::Flag | Phase::Delimiter => (receiving, !receiving),
            Phase::Idle | Phase::Intermission | Phase::Suspension => (false, false),
        };
        if self.stands_still(turn) {
            return;
        }
        self.registers.rs = rs;
        self.registers.ts = ts;
    }

    /// Whether RS and TS stay as they are: from version 3 on in reset mode, and in turns of an activation that was
    /// left.
    fn stands_still(&self, turn: &BusTurn) -> bool
        ensures { result ≡ stands_still self.now turn.now }
    {
        let registers = &self.registers;
        registers.by_bytes() && (registers.mode.rm || turn.activation != registers.activation)
    }

    /// RXERR, TXERR and BS, where they are the node's, and the interrupts that hang on them.
    fn count(&mut self, turn: &BusTurn)
        ensures { self.new ≡ with_counters self.old turn.now }
    {
        if !self.follows_node(turn) || self.has_counted(turn) {
            return;
        }
        let before = self.registers.shown_state();
        let registers = &mut self.registers;
        registers.rxerr = turn.rxerr;
        registers.txerr = turn.txerr;
        registers.bs = turn.off;
        let errors = registers.error_causes(before);
        if errors.ei | errors.epi {
            self.raise(errors);
        }
    }

    /// Whether counters and BS are the node's in this turn: from version 3 on in those of the present activation, until
    /// a counter is written in reset mode.
    fn follows_node(&self, turn: &BusTurn) -> bool
        ensures { result ≡ follows_node self.now turn.now }
    {
        let registers = &self.registers;
        !registers.by_bytes()
            || (turn.activation == registers.activation
                && !(registers.set_tec.is_some() | registers.set_rec.is_some()))
    }

    /// Whether counters and BS stand already at what a turn says.
    fn has_counted(&self, turn: &BusTurn) -> bool
        ensures { result ≡ true ↔ HasCounted self.now turn.now }
    {
        self.registers.rxerr == turn.rxerr
            && self.registers.txerr == turn.txerr
            && self.registers.bs == turn.off
    }

    /// ALC and ECC.
    fn capture(&mut self, events: &BitEvents)
        ensures { self.new ≡ with_captures self.old events.now }
    {
        self.registers.alc.take(events.lost);
        self.registers
            .ecc
            .take(code_of_fault(events.fault, events.receiving));
    }

    /// DOS, the end of a request, and bus-off.
    fn settle(&mut self, turn: &BusTurn)
        requires { self.old.mode.rm ≡ false }
        ensures { self.new ≡ after_settling self.old turn.now }
    {
        let ended = turn.events.ended.is_some() | turn.aborted;
        let registers = &mut self.registers;
        registers.dos = turn.overrun | registers.dos;
        registers.tbs = ended | registers.tbs;
        registers.tcs = is_sent(turn) | registers.tcs;
        registers.abort = !ended & registers.abort;
        if turn.events.went_off {
            self.enter_reset();
        }
    }
}

impl Registers {
    /// Whether the turn is of the present activation, which goes on.
    fn is_live(&self, turn: &BusTurn) -> bool
        ensures { result ≡ is_live self.now turn.now }
    {
        !self.mode.rm && turn.activation == self.activation
    }

    /// Which of the activation's interrupts have a cause: TI, DOI, ALI and BEI.
    fn activity(&self, turn: &BusTurn) -> Interrupts
        requires { is_live self.now turn.now ≡ true }
        ensures { result ≡ activity self.now turn.now }
    {
        let events = &turn.events;
        Interrupts {
            ti: (events.ended.is_some() | turn.aborted) & !self.tbs,
            doi: turn.overrun & !self.dos & !events.went_off,
            ali: events.lost.is_some() & self.may_tell(self.alc),
            bei: events.fault.is_some() & self.may_tell(self.ecc),
            ..Interrupts::none()
        }
    }

    /// Whether an event gives its interrupt, by the register that captures it.
    fn may_tell(&self, capture: Capture) -> bool
        ensures { result ≡ may_tell self.now capture }
    {
        capture.was_read || !self.by_bytes()
    }
}

/// The error code of a fault, if there is one.
fn code_of_fault(fault: Option<(Cause, Segment)>, receiving: bool) -> Option<u8>
    ensures { result ≡ code_of_fault fault receiving }
{
    let (cause, segment) = fault?;
    Some(error_code(cause, segment, receiving))
}

/// Whether a request was sent.
fn is_sent(turn: &BusTurn) -> bool
    ensures { result ≡ is_sent turn.now.events.ended }
{
    matches!(turn.events.ended, Some(Outcome::Sent))
}

/// Whether a turn brought something to its activation: the end of a request, a lost arbitration, a fault, an overrun or
/// bus-off.
fn brings_news(turn: &BusTurn) -> bool
    ensures { result ≡ false ↔ BringsNoNews turn.now }
{
    let events = &turn.events;
    let ended = events.ended.is_some() | turn.aborted;
    let captured = events.lost.is_some() | events.fault.is_some();
    ended | captured | turn.overrun | events.went_off
}
