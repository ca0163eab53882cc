//! One controller on the bus.

ghost use Rattle.std.specs.Prelude.{◌≡◌};

use super::activity::Activity;
use super::pending_event::PendingEvent;
use can_frame::OutOfMemory;
use can_levels::Level;
use can_node::Node;
use sja_journal::{BusFault, Entry, Recorder};
use sja_link::{BusLedger, LinkId};
use std::alloc::Global;

/// One controller on the bus: its node, its journal, and what the bus knows of its activations.
#[derive(Debug, Drop)]
pub(crate) struct BusNode {
    pub(crate) node: Node,
    /// The level that the node drives in the next bit.
    pub(crate) drives: Level,
    /// The bytes that are free in the activation that is read.
    pub(crate) ledger: BusLedger,
    pub(crate) journal: Recorder,
    /// How many activations have ended.
    pub(crate) ended: u64,
    pub(crate) activity: Activity,
    /// What the port isn't told yet.
    pub(crate) untold: PendingEvent,
}

impl BusNode {
    ghost use Rattle.std.specs.Prelude.{◌≡◌, ◌<◌, [], ◌∷◌, ◌++◌, OnOk, IfErr, length, ◌≢◌, ◌+◌, true, false};
    ghost use Rattle.std.specs.Prelude.{IfOk, ◌^◌, ◌≤◌};
    ghost use Rattle.sja_journal.specs.Written.{Fits, room_in};
    ghost use Rattle.sja_link.specs.BusLedgers.{link_of, free_in};
    ghost use Rattle.sja_journal.specs.declared.entry.Entry.TheVariants.{Bit as BitEntry};
    ghost use Rattle.sja_bus.specs.Inside.Following.{Follows, Reads, open_in};
    ghost use Rattle.sja_bus.specs.Inside.BusNodes.{IsSound, IsReady};
    ghost use Rattle.sja_bus.specs.Inside.Taking.{IsFull};
    ghost use Rattle.sja_bus.specs.declared.pending_event.PendingEvent.TheVariants.{Nothing};

    /// A controller to which nothing has happened, with room for a run of so many bits, in which its driver does so
    /// many steps.
    ///
    /// Error: [`OutOfMemory`] where memory was refused.
    pub(crate) fn new(
        alloc: Global,
        number: u8,
        bits: u64,
        steps: u64,
    ) -> Result<BusNode, OutOfMemory>
        requires few { (bits ≤ 2 ^ 62) × (steps ≤ 2 ^ 58) }
        ensures ready { IfOk result (λ s. IsReady s) }
        ensures own { IfOk result (λ s. (link_of s.ledger).node ≡ number) }
        ensures empty { IfOk result (λ s. s.journal.entries ≡ []) }
        ensures room { IfOk result (λ s. s.journal.room ≡ room_in bits steps) }
        ensures untold { IfOk result (λ s. s.untold ≡ Nothing) }
    {
        let journal = Recorder::new(alloc, bits, steps)?;
        let node = Node::new();
        let drives = node.drive();
        let ledger = BusLedger::new(LinkId {
            node: number,
            activation: 1,
        });
        Ok(BusNode {
            node,
            drives,
            ledger,
            journal,
            ended: 0,
            activity: Activity::Between,
            untold: PendingEvent::Nothing,
        })
    }

    /// The number of the node.
    pub(crate) fn number(&self) -> u8
        ensures { result ≡ (link_of self.now.ledger).node }
    {
        self.ledger.id().node
    }

    /// Whether a start was taken.
    pub(crate) fn has_begun(&self) -> bool
        ensures yes { result ≡ true → self.now.ended + open_in self.now.activity ≢ 0 }
        ensures no { result ≡ false → self.now.ended + open_in self.now.activity ≡ 0 }
    {
        if self.ended > 0 {
            return true;
        }
        match self.activity {
            Activity::Between => false,
            _ => true,
        }
    }

    /// Writes an entry.
    pub(crate) fn enter(&mut self, entry: Entry) -> Result<(), BusFault>
        ensures others { self.new ≡ record self.old { journal = self.new.journal } }
        ensures room { self.new.journal.room ≡ self.old.journal.room }
        ensures sound { OnOk result (Follows self.old.node (self.old.journal.entries ++ entry ∷ []) →
            Reads self.old.node (self.old.journal.entries ++ entry ∷ []) self.old.ended self.old.activity
            (free_in self.old.ledger) →
            IsSound self.new) }
        ensures ok { OnOk result ((self.new.journal.entries ≡ self.old.journal.entries ++ entry ∷ [])
            × Fits self.old.journal.room (self.old.journal.entries ++ entry ∷ [])) }
        ensures full { IfErr result (λ f. IsFull self.old self.new entry f) }
    {
        match self.journal.enter(entry) {
            Ok(()) => Ok(()),
            Err(_) => Err(BusFault::JournalFull(self.number())),
        }
    }

    /// Writes a bit.
    #[inline(always)]
    pub(crate) fn enter_bit(&mut self, driven: Level, seen: Level) -> Result<(), BusFault>
        ensures others { self.new ≡ record self.old { journal = self.new.journal } }
        ensures room { self.new.journal.room ≡ self.old.journal.room }
        ensures ok { OnOk result ((self.new.journal.entries ≡ self.old.journal.entries ++ BitEntry driven seen ∷ [])
            × (length self.old.journal.entries < self.old.journal.room.all)) }
        ensures full { IfErr result (λ f. IsFull self.old self.new (BitEntry driven seen) f) }
    {
        match self.journal.enter_bit(driven, seen) {
            Ok(()) => Ok(()),
            Err(_) => Err(BusFault::JournalFull(self.number())),
        }
    }
}
