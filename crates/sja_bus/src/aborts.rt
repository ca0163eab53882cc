//! Aborts: what marks or drops the request of a controller before it drives a bit.

use super::activity::Activity;
use super::bus_node::BusNode;
use super::pending_event::PendingEvent;
use can_node_rules::AbortOutcome;
use sja_journal::{BusFault, Entry};

impl BusNode {
    ghost use Rattle.std.specs.Prelude.{◌≡◌, ◌+◌, [], ◌∷◌, ◌++◌, true, OnOk};
    ghost use Rattle.std.specs.Prelude.{OnErr, IfErr};
    ghost use Rattle.sja_link.specs.BusLedgers.{free_in};
    ghost use Rattle.sja_journal.specs.declared.entry.Entry.TheVariants.{Abort as AbortEntry};
    ghost use Rattle.sja_journal.specs.Aborting.{IsApplied};
    ghost use Rattle.sja_bus.specs.Inside.Following.{Follows, Reads};
    ghost use Rattle.sja_bus.specs.Inside.BusNodes.{IsBusNode, IsReady};
    ghost use Rattle.sja_bus.specs.Inside.Taking.{Applies, IsFull};
    ghost use Rattle.sja_bus.specs.Inside.Turning.{AbortsUntold};

    /// Applies an abort that stands.
    #[inline(never)]
    pub(crate) fn abort(&mut self) -> Result<(), BusFault>
        requires ready { IsReady self.old }
        ensures ledger { self.new.ledger ≡ self.old.ledger }
        ensures room { self.new.journal.room ≡ self.old.journal.room }
        ensures ready { OnOk result (IsReady self.new) }
        ensures ended { self.new.ended ≡ self.old.ended }
        ensures aborts { OnOk result (Applies self.old.journal.entries self.new.journal.entries) }
        ensures untold { OnOk result (AbortsUntold self.old self.new) }
        ensures full { IfErr result (λ f. IsFull self.old self.new AbortEntry f) }
        ensures due { OnErr result (IsApplied self.old.journal.entries true) }
    {
        let Activity::Running(_) = self.activity else {
            return Ok(());
        };
        match self.node.abort() {
            AbortOutcome::Unchanged => Ok(()),
            AbortOutcome::Marked => self.enter_abort(PendingEvent::Changed),
            AbortOutcome::Dropped => self.enter_abort(PendingEvent::Dropped),
        }
    }

    /// Writes an abort that changed the node.
    fn enter_abort(&mut self, untold: PendingEvent) -> Result<(), BusFault>
        requires follows { Follows self.old.node (self.old.journal.entries ++ AbortEntry ∷ []) }
        requires reads { Reads self.old.node (self.old.journal.entries ++ AbortEntry ∷ []) self.old.ended
            self.old.activity (free_in self.old.ledger) }
        requires bus_node { IsBusNode self.old }
        ensures ledger { self.new.ledger ≡ self.old.ledger }
        ensures room { self.new.journal.room ≡ self.old.journal.room }
        ensures ready { OnOk result (IsReady self.new) }
        ensures ended { self.new.ended ≡ self.old.ended }
        ensures untold { self.new.untold ≡ untold }
        ensures entered { OnOk result (self.new.journal.entries ≡ self.old.journal.entries ++ AbortEntry ∷ []) }
        ensures full { IfErr result (λ f. IsFull self.old self.new AbortEntry f) }
    {
        self.untold = untold;
        self.drives = self.node.drive();
        self.enter(Entry::Abort)
    }
}
