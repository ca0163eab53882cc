//! The bus's ledger of one activation.

ghost use Rattle.std.specs.Prelude.{◌≤◌};

use super::bad_credit::BadCredit;
use super::bus_end::BusEnd;
use super::busy::Busy;
use super::link_id::LinkId;
use can_frame::Message;
use sja_journal::{Down, RECEIVE_FIFO, Up, Verdict};

/// The bus's account of one activation: the bytes that are free in the receive buffer, 0 to 64.
///
/// It decides which message is stored and which is overrun, and keeps no journal. Where the free bytes are those of a
/// part of a journal before a call, they are those of that part with the call's entry after it. Each call that takes an
/// end has the condition that it is of the ledger's node.
#[derive(Debug, Drop)]
pub struct BusLedger {
    pub(crate) id: LinkId,
    pub(crate) free: u8,
    ghost fits: { free ≤ 64 },
}

impl BusLedger {
    ghost use Rattle.std.specs.Prelude.{◌≡◌, ◌≢◌, ℕ, List, [], ◌∷◌, ◌++◌, ◌+◌, ◌<◌, ◌≤◌, ◌⊎◌};
    ghost use Rattle.std.specs.Prelude.{length, Ok, OnOk, OnErr, IfOk, IfErr, IfSome, IfNone};
    ghost use Rattle.sja_journal.specs.declared.down.Down.TheVariants.{Off as OffDown};
    ghost use Rattle.sja_journal.specs.declared.up.Up.TheVariants.{Credit};
    ghost use Rattle.sja_journal.specs.declared.verdict.Verdict.TheVariants.{Stored, Overrun};
    ghost use Rattle.sja_journal.specs.declared.entry.Entry.{Entry};
    ghost use Rattle.sja_journal.specs.declared.entry.Entry.TheVariants.{Up as Item};
    ghost use Rattle.sja_journal.specs.Lists.{with_put, with_taken, OthersStand, Carries, Keeps};
    ghost use Rattle.sja_journal.specs.Accounts.{with_entry};
    ghost use Rattle.sja_journal.specs.Free.{IsFree};
    ghost use Rattle.sja_journal.specs.Verdicts.{IsFair, entry_of};
    ghost use Rattle.sja_link.specs.BusLedgers.{link_of, activation_of, free_in};

    /// The ledger of an activation that begins: all 64 bytes are free.
    pub fn new(id: LinkId) -> BusLedger
        ensures id { link_of result ≡ id }
        ensures free { free_in result ≡ 64 }
    {
        BusLedger {
            id,
            free: RECEIVE_FIFO,
        }
    }

    /// Which link it is of.
    pub fn id(&self) -> LinkId
        ensures { result ≡ link_of self.now }
    {
        self.id
    }

    /// How many bytes are free: 64, less those stored, and those collected back.
    pub fn free(&self) -> u8
        ensures value { result ≡ free_in self.now }
        ensures few { result ≤ 64 }
    {
        self.free
    }

    /// Judges a message that was received and passed the filter: it is put where it is at most as long as the bytes
    /// that are free, and else it is overrun and lost.
    ///
    /// Error: [`Busy`] where the message fits and the end gave it back; the ledger is unchanged.
    pub fn accept<E: BusEnd>(&mut self, end: &mut E, message: Message) -> Result<Verdict, Busy>
        requires { E.node end.old ≡ (link_of self.old).node }
        ensures id { link_of self.new ≡ link_of self.old }
        ensures same { E.same end.old end.new }
        ensures others { OthersStand E.stands (activation_of self.old) end.old end.new }
        ensures stored { result ≡ Ok Stored → (length message ≤ free_in self.old)
            × (free_in self.new + length message ≡ free_in self.old) }
        ensures overrun { result ≡ Ok Overrun → (free_in self.old < length message) × (self.new ≡ self.old)
            × (end.new ≡ end.old) }
        ensures puts { IfOk result (λ v.
            Carries E.stands (activation_of self.old) end.old end.new (λ l. with_entry l (entry_of v message))) }
        ensures judged { IfOk result (λ v. (p : List Entry) → IsFree p (free_in self.old) →
            IsFair p (entry_of v message) × IsFree (p ++ entry_of v message ∷ []) (free_in self.new)) }
        ensures busy { OnErr result ((self.new ≡ self.old) × (length message ≤ free_in self.old)
            × E.full end.old (activation_of self.old) × (Keeps E.stands (activation_of self.old) end.old end.new)) }
    {
        let len = message.len() as u8;
        if self.free < len {
            return Ok(Verdict::Overrun);
        }
        match end.put(self.id.activation, Down::Message(message)) {
            Ok(()) => {
                self.free -= len;
                Ok(Verdict::Stored)
            }
            Err(_) => Err(Busy),
        }
    }

    /// Takes the next item that the driver gave, if one is shown. A credit's bytes become free.
    ///
    /// Error: [`BadCredit`] for a credit outside 3 to 13, or one that would lift the free bytes above 64; the item is
    /// gone, and the free bytes are unchanged.
    pub fn collect<E: BusEnd>(&mut self, end: &mut E) -> Result<Option<Up>, BadCredit>
        requires { E.node end.old ≡ (link_of self.old).node }
        ensures id { link_of self.new ≡ link_of self.old }
        ensures same { E.same end.old end.new }
        ensures others { OthersStand E.stands (activation_of self.old) end.old end.new }
        ensures none { IfOk result (λ o. IfNone o ((self.new ≡ self.old) × E.dry end.new (activation_of self.old)
            × (Keeps E.stands (activation_of self.old) end.old end.new))) }
        ensures item { IfOk result (λ o. IfSome o (λ x.
            Carries E.stands (activation_of self.old) end.old end.new (λ l. with_taken l x))) }
        ensures has { IfOk result (λ o. IfSome o (λ x. activation_of self.old ≤ E.links end.new)) }
        ensures credit { IfOk result (λ o. IfSome o (λ x. (n : ℕ) → x ≡ Credit n →
            (3 ≤ n) × (n ≤ 13) × (free_in self.new ≡ free_in self.old + n))) }
        ensures other { IfOk result (λ o. IfSome o (λ x. ((n : ℕ) → x ≢ Credit n) → self.new ≡ self.old)) }
        ensures free { IfOk result (λ o. IfSome o (λ x. (p : List Entry) → IsFree p (free_in self.old) →
            IsFree (p ++ Item x ∷ []) (free_in self.new))) }
        ensures bad { IfErr result (λ e. (self.new ≡ self.old)
            × ((e.0 < 3) ⊎ (13 < e.0) ⊎ (64 < free_in self.old + e.0))
            × (Carries E.stands (activation_of self.old) end.old end.new (λ l. with_taken l (Credit e.0)))) }
        ensures has_bad { OnErr result (activation_of self.old ≤ E.links end.new) }
    {
        let Some(item) = end.take(self.id.activation) else {
            return Ok(None);
        };
        if let Up::Credit(bytes) = item {
            if !(3..=13).contains(&bytes) || bytes > RECEIVE_FIFO - self.free {
                return Err(BadCredit(bytes));
            }
            self.free += bytes;
            return Ok(Some(Up::Credit(bytes)));
        }
        Ok(Some(item))
    }

    /// Puts that the node went bus-off.
    ///
    /// Error: [`Busy`] where the end gave it back.
    pub fn off<E: BusEnd>(&mut self, end: &mut E) -> Result<(), Busy>
        requires { E.node end.old ≡ (link_of self.old).node }
        ensures ledger { self.new ≡ self.old }
        ensures same { E.same end.old end.new }
        ensures others { OthersStand E.stands (activation_of self.old) end.old end.new }
        ensures puts { OnOk result
            (Carries E.stands (activation_of self.old) end.old end.new (λ l. with_put l OffDown)) }
        ensures busy { OnErr result (E.full end.old (activation_of self.old)
            × (Keeps E.stands (activation_of self.old) end.old end.new)) }
    {
        match end.put(self.id.activation, Down::Off) {
            Ok(()) => Ok(()),
            Err(_) => Err(Busy),
        }
    }
}
