//! One bit of a controller: what it sees, what comes of it, and what its port is told.

use super::activity::Activity;
use super::bit_outcome::BitOutcome;
use super::board::Board;
use super::bus_node::BusNode;
use super::pending_event::PendingEvent;
use super::row_frame::RowFrame;
use super::verdict::passing;
use can_levels::Level;
use sja_journal::{BusFault, Entry};
use sja_link::BusEnd;

impl BusNode {
    ghost use Rattle.std.specs.Prelude.{◌≡◌, ◌<◌, true, false, length, OnOk, IfOk, IfErr, suc, [], ◌∷◌, ◌++◌};
    ghost use Rattle.can_node.specs.Stands.{Samples, InReset};
    ghost use Rattle.sja_link.specs.BusLedgers.{link_of};
    ghost use Rattle.sja_link.specs.Moving.{Goes, Moves};
    ghost use Rattle.sja_bus.specs.Inside.BusNodes.{IsSound, IsBusNode, IsReady, IsMid};
    ghost use Rattle.sja_bus.specs.Inside.AtLinks.{HasEnd, KeepsEnd};
    ghost use Rattle.sja_bus.specs.declared.pending_event.PendingEvent.TheVariants.{Nothing};
    ghost use Rattle.sja_bus.specs.Inside.BusNodeBits.{BreaksInBit, HadBit, KeepsInBit};
    ghost use Rattle.sja_bus.specs.Inside.Turning.{Brings, IsQuietBit, BringsVerdict};
    ghost use Rattle.can_frame.specs.declared.filter.Filter.{Filter as Filtering};
    ghost use Rattle.sja_journal.specs.declared.entry.Entry.TheVariants.{Bit};
    ghost use Rattle.sja_bus.specs.declared.activity.Activity.TheVariants.{Running};
    ghost use Rattle.sja_bus.specs.Inside.Taking.{IsBitShort};

    /// One bit of the node, which sees this level. Its port is told of it, unless nothing happened and nothing is left
    /// to be told. Answers whether it was told.
    #[inline(always)]
    pub(crate) fn sample<E: BusEnd, B: Board>(
        &mut self,
        end: &mut E,
        seen: Level,
        board: &mut B,
        row: &mut RowFrame,
    ) -> Result<bool, BusFault>
        requires at { HasEnd E.node self.old end.old }
        requires port { (link_of self.old.ledger).node < B.ports board.old }
        ensures keeps { KeepsInBit E.BusEnd B.Board self.old self.new end.old end.new board.old board.new }
        ensures had { IfOk result (λ told. HadBit E.BusEnd B.Board told seen self.old self.new end.old end.new
            board.old board.new) }
        ensures broken { IfErr result (λ f. BreaksInBit E.BusEnd self.old self.new end.old f) }
    {
        if self.may_sample_quietly() && self.sample_quietly(seen) {
            return Ok(false);
        }
        self.sample_and_tell(end, seen, board, row)
    }

    /// One bit of the node, in which something may happen. Its port is told of it, unless nothing did and nothing is
    /// left to be told. Answers whether it was told.
    #[inline(always)]
    pub(crate) fn sample_and_tell<E: BusEnd, B: Board>(
        &mut self,
        end: &mut E,
        seen: Level,
        board: &mut B,
        row: &mut RowFrame,
    ) -> Result<bool, BusFault>
        requires at { HasEnd E.node self.old end.old }
        requires port { (link_of self.old.ledger).node < B.ports board.old }
        ensures keeps { KeepsInBit E.BusEnd B.Board self.old self.new end.old end.new board.old board.new }
        ensures had { IfOk result (λ told. HadBit E.BusEnd B.Board told seen self.old self.new end.old end.new
            board.old board.new) }
        ensures broken { IfErr result (λ f. BreaksInBit E.BusEnd self.old self.new end.old f) }
    {
        let stands = self.stands();
        let outcome = self.sample_fully(end, seen, row)?;
        self.drives = self.node.drive();
        Ok(self.tell(board, outcome, &stands))
    }

    /// Whether its port is told all, and its journal has room.
    #[inline(always)]
    fn may_sample_quietly(&self) -> bool
        ensures told { result ≡ true → self.now.untold ≡ Nothing }
        ensures free { result ≡ true → length self.now.journal.entries < self.now.journal.room.all }
    {
        if let PendingEvent::Nothing = self.untold {
            self.journal.is_open()
        } else {
            false
        }
    }

    /// A bit of the node, which sees this level and whose port is told all, where nothing happens and its journal has
    /// room. Answers whether it was one; else nothing changed.
    #[inline(always)]
    pub(crate) fn sample_quietly(&mut self, seen: Level) -> bool
        requires ready { IsReady self.old }
        requires told { self.old.untold ≡ Nothing }
        requires free { length self.old.journal.entries < self.old.journal.room.all }
        ensures node { (link_of self.new.ledger).node ≡ (link_of self.old.ledger).node }
        ensures room { self.new.journal.room ≡ self.old.journal.room }
        ensures ready { IsReady self.new }
        ensures quiet { result ≡ true → IsQuietBit seen self.old self.new }
        ensures same { result ≡ false → self.new ≡ self.old }
    {
        if self.node.sample_quietly(seen) {
            self.journal.enter_bit_reserved(self.drives, seen);
            self.drives = self.node.drive();
            return true;
        }
        false
    }

    /// One bit of the node in which something may happen.
    #[inline(always)]
    fn sample_fully<E: BusEnd>(
        &mut self,
        end: &mut E,
        seen: Level,
        row: &mut RowFrame,
    ) -> Result<BitOutcome, BusFault>
        requires at { HasEnd E.node self.old end.old }
        ensures stays { KeepsEnd E.same self.old self.new end.old end.new }
        ensures sound { OnOk result (IsSound self.new) }
        ensures bus_node { OnOk result (IsBusNode self.new) }
        ensures untold { self.new.untold ≡ self.old.untold }
        ensures samples { IfOk result (λ outcome. Samples self.old.node self.new.node seen outcome.events) }
        ensures goes { OnOk result
            (Goes E.same E.stands end.old end.new self.old.journal.entries self.new.journal.entries) }
        ensures brings { IfOk result (λ outcome.
            Brings self.old.journal.entries self.old.drives seen outcome self.new.journal.entries) }
        ensures broken { IfErr result (λ f. BreaksInBit E.BusEnd self.old self.new end.old f) }
    {
        let Activity::Running(_) = self.activity else {
            return self.sample_in_reset(seen);
        };
        self.sample_running(end, seen, row)
    }

    /// One bit of a node in reset: it looks at no level.
    fn sample_in_reset(&mut self, seen: Level) -> Result<BitOutcome, BusFault>
        requires rests { InReset self.old.node }
        requires ready { IsReady self.old }
        ensures room { self.new.journal.room ≡ self.old.journal.room }
        ensures kept { (self.new.ended ≡ self.old.ended) × (self.new.ledger ≡ self.old.ledger) }
        ensures untold { self.new.untold ≡ self.old.untold }
        ensures sound { OnOk result (IsSound self.new) }
        ensures bus_node { OnOk result (IsBusNode self.new) }
        ensures samples { IfOk result (λ outcome. Samples self.old.node self.new.node seen outcome.events) }
        ensures entered { OnOk result
            (self.new.journal.entries ≡ self.old.journal.entries ++ Bit self.old.drives seen ∷ []) }
        ensures quiet { IfOk result (λ outcome. (outcome.events.went_off ≡ false) × (outcome.overrun ≡ false)) }
        ensures short { IfErr result (λ f. IsBitShort self.old self.new f) }
    {
        let driven = self.drives;
        let events = self.node.sample(seen);
        self.enter(Entry::Bit(driven, seen))?;
        Ok(BitOutcome {
            events,
            overrun: false,
        })
    }

    /// One bit of a node that runs.
    fn sample_running<E: BusEnd>(
        &mut self,
        end: &mut E,
        seen: Level,
        row: &mut RowFrame,
    ) -> Result<BitOutcome, BusFault>
        requires running { (f : Filtering) × (self.old.activity ≡ Running f) }
        requires at { HasEnd E.node self.old end.old }
        ensures room { self.new.journal.room ≡ self.old.journal.room }
        ensures id { link_of self.new.ledger ≡ link_of self.old.ledger }
        ensures ended { self.new.ended ≡ self.old.ended }
        ensures untold { self.new.untold ≡ self.old.untold }
        ensures same { E.same end.old end.new }
        ensures sound { OnOk result (IsSound self.new) }
        ensures bus_node { OnOk result (IsBusNode self.new) }
        ensures samples { IfOk result (λ outcome. Samples self.old.node self.new.node seen outcome.events) }
        ensures moves { OnOk result
            (Moves E.stands end.old end.new self.old.journal.entries self.new.journal.entries (suc self.old.ended)) }
        ensures brings { IfOk result (λ outcome.
            Brings self.old.journal.entries self.old.drives seen outcome self.new.journal.entries) }
        ensures broken { IfErr result (λ f. BreaksInBit E.BusEnd self.old self.new end.old f) }
    {
        let outcome = self.sample_and_judge(end, seen, row)?;
        if !outcome.events.went_off {
            return Ok(outcome);
        }
        self.go_off(end)?;
        Ok(outcome)
    }

    /// The bit of a node that runs, and the verdict on what was received with it.
    fn sample_and_judge<E: BusEnd>(
        &mut self,
        end: &mut E,
        seen: Level,
        row: &mut RowFrame,
    ) -> Result<BitOutcome, BusFault>
        requires at { HasEnd E.node self.old end.old }
        requires runs { (f : Filtering) × (self.old.activity ≡ Running f) }
        ensures same { E.same end.old end.new }
        ensures kept { (self.new.ended ≡ self.old.ended) × (self.new.activity ≡ self.old.activity)
            × (link_of self.new.ledger ≡ link_of self.old.ledger) }
        ensures room { self.new.journal.room ≡ self.old.journal.room }
        ensures untold { self.new.untold ≡ self.old.untold }
        ensures mid { IfOk result (λ outcome. IsMid self.new outcome.events.went_off) }
        ensures off { IfOk result (λ outcome. outcome.events.went_off ≡ true → InReset self.new.node) }
        ensures samples { IfOk result (λ outcome. Samples self.old.node self.new.node seen outcome.events) }
        ensures moves { OnOk result
            (Moves E.stands end.old end.new self.old.journal.entries self.new.journal.entries (suc self.old.ended)) }
        ensures verdict { IfOk result (λ outcome.
            BringsVerdict self.old.journal.entries self.old.drives seen outcome self.new.journal.entries) }
        ensures broken { IfErr result (λ f. BreaksInBit E.BusEnd self.old self.new end.old f) }
    {
        let driven = self.drives;
        let events = self.node.sample_fully_with(seen, Some(&mut row.frame));
        match passing(&self.activity, &events.received, row) {
            None => {
                self.enter_bit(driven, seen)?;
                Ok(BitOutcome {
                    events,
                    overrun: false,
                })
            }
            Some(message) => {
                let overrun = self.judge(end, driven, seen, message)?;
                Ok(BitOutcome { events, overrun })
            }
        }
    }
}
