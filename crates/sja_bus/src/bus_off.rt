//! Bus-off: the driver is told of it, and it is entered.

use super::activity::Activity;
use super::bus_node::BusNode;
use super::verdict::TRIES;
use sja_journal::{BusFault, Entry};
use sja_link::BusEnd;

impl BusNode {
    ghost use Rattle.std.specs.Prelude.{◌≡◌, suc, [], ◌∷◌, ◌++◌, OnOk};
    ghost use Rattle.std.specs.Prelude.{IfErr, true};
    ghost use Rattle.can_frame.specs.declared.filter.Filter.{Filter as Filtering};
    ghost use Rattle.can_node.specs.Stands.{InReset};
    ghost use Rattle.sja_journal.specs.declared.entry.Entry.TheVariants.{Off as OffEntry};
    ghost use Rattle.sja_link.specs.BusLedgers.{link_of};
    ghost use Rattle.sja_journal.specs.Written.{IsFullFor};
    ghost use Rattle.sja_bus.specs.declared.activity.Activity.TheVariants.{Running};
    ghost use Rattle.sja_link.specs.Moving.{Moves};
    ghost use Rattle.sja_bus.specs.Inside.BusNodes.{IsSound, IsBusNode, IsMid};
    ghost use Rattle.sja_bus.specs.Inside.Taking.{BreaksBy};

    /// Tells the driver of bus-off, and writes it. The put is tried again where the end gives it back.
    pub(crate) fn go_off<E: BusEnd>(&mut self, end: &mut E) -> Result<(), BusFault>
        requires own { E.node end.old ≡ (link_of self.old.ledger).node }
        requires runs { (f : Filtering) × (self.old.activity ≡ Running f) }
        requires mid { IsMid self.old true }
        requires reset { InReset self.old.node }
        requires bus_node { IsBusNode self.old }
        ensures same { E.same end.old end.new }
        ensures room { self.new.journal.room ≡ self.old.journal.room }
        ensures ledger { self.new.ledger ≡ self.old.ledger }
        ensures ended { self.new.ended ≡ self.old.ended }
        ensures untold { self.new.untold ≡ self.old.untold }
        ensures node { self.new.node ≡ self.old.node }
        ensures sound { OnOk result (IsSound self.new) }
        ensures bus_node { OnOk result (IsBusNode self.new) }
        ensures moves { OnOk result
            (Moves E.stands end.old end.new self.old.journal.entries self.new.journal.entries (suc self.old.ended)) }
        ensures entered { OnOk result (self.new.journal.entries ≡ self.old.journal.entries ++ OffEntry ∷ []) }
        ensures broken { IfErr result (λ f. BreaksBy (IsFullFor self.old.journal.room self.old.journal.entries OffEntry)
            E.BusEnd end.old self.old self.new f) }
        ensures unentered { IfErr result (λ f. self.new.journal.entries ≡ self.old.journal.entries) }
    {
        for _ in 0..TRIES {
            if let Ok(()) = self.ledger.off(end) {
                self.activity = Activity::Off;
                return self.enter(Entry::Off);
            }
        }
        Err(BusFault::Stuck(self.number()))
    }
}
