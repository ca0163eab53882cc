//! The verdict on a message that was received: it is stored, or overrun.

ghost use Rattle.std.specs.Prelude.{◌≡◌, ℕ, List, Some, [], ◌∷◌, ◌++◌, IfOk, OnErr};
ghost use Rattle.can_frame.specs.declared.filter.Filter.{Filter as Filtering};
ghost use Rattle.sja_journal.specs.Verdicts.{entry_of, IsFair};
ghost use Rattle.sja_bus.specs.declared.activity.Activity.TheVariants.{Running};
ghost use Rattle.sja_bus_rules.specs.Telling.{is_overrun as overruns};
ghost use Rattle.sja_bus.specs.Inside.BusNodes.{IsPassing};
ghost use Rattle.sja_journal.specs.declared.entry.Entry.{Entry};
ghost use Rattle.sja_journal.specs.Lists.{OthersStand, Carries};
ghost use Rattle.sja_journal.specs.Accounts.{with_entry};
ghost use Rattle.sja_journal.specs.Free.{IsFree};
ghost use Rattle.sja_link.specs.BusLedgers.{link_of, activation_of, free_in};
ghost use Rattle.sja_bus.specs.Inside.Taking.{IsGivenBack};

use super::activity::Activity;
use super::bus_node::BusNode;
use super::row_frame::RowFrame;
use can_frame::{Frame, Message};
use can_levels::Level;
use sja_journal::{BusFault, Entry, Verdict};
use sja_link::{BusEnd, BusLedger, Busy};

/// How often a put is tried.
pub(crate) const TRIES: u32 = 1_000_000;

impl BusNode {
    ghost use Rattle.std.specs.Prelude.{◌≡◌, suc, OnOk, IfOk};
    ghost use Rattle.std.specs.Prelude.{IfErr};
    ghost use Rattle.sja_journal.specs.Parts.{part};
    ghost use Rattle.sja_journal.specs.Verdicts.{IsLawful};
    ghost use Rattle.sja_journal.specs.OutOfOrder.{HasOff};
    ghost use Rattle.sja_link.specs.BusLedgers.{link_of, free_in};
    ghost use Rattle.sja_link.specs.Moving.{Moves};
    ghost use Rattle.sja_bus.specs.Inside.Following.{Reads, open_in};
    ghost use Rattle.sja_bus.specs.Inside.BusNodes.{IsBusNode, IsJudged};
    ghost use Rattle.sja_bus.specs.Inside.Taking.{BreaksBy, IsJudgedShort};

    /// Judges a message, and writes the bit and the verdict. Whether the message found no room.
    pub(crate) fn judge<E: BusEnd>(
        &mut self,
        end: &mut E,
        driven: Level,
        seen: Level,
        message: Message,
    ) -> Result<bool, BusFault>
        requires own { E.node end.old ≡ (link_of self.old.ledger).node }
        requires runs { open_in self.old.activity ≡ 1 }
        requires reads { Reads self.old.node self.old.journal.entries self.old.ended self.old.activity
            (free_in self.old.ledger) }
        requires lawful { IsLawful self.old.journal.entries }
        requires on { HasOff (part self.old.journal.entries (suc self.old.ended)) → ⊥ }
        requires bus_node { IsBusNode self.old }
        ensures same { E.same end.old end.new }
        ensures room { self.new.journal.room ≡ self.old.journal.room }
        ensures kept { (self.new.node ≡ self.old.node) × (self.new.ended ≡ self.old.ended)
            × (self.new.activity ≡ self.old.activity) × (link_of self.new.ledger ≡ link_of self.old.ledger) }
        ensures untold { self.new.untold ≡ self.old.untold }
        ensures judged { IfOk result (λ overrun.
            IsJudged self.old.journal.entries driven seen (suc self.old.ended) message overrun
            self.new.journal.entries) }
        ensures reads { OnOk result
            (Reads self.new.node self.new.journal.entries self.new.ended self.new.activity (free_in self.new.ledger)) }
        ensures moves { OnOk result
            (Moves E.stands end.old end.new self.old.journal.entries self.new.journal.entries (suc self.old.ended)) }
        ensures broken { IfErr result (λ f. BreaksBy (IsJudgedShort self.old.journal.room self.old.journal.entries
            driven seen (suc self.old.ended) message self.new.journal.entries)
            E.BusEnd end.old self.old self.new f) }
    {
        match accept(&mut self.ledger, end, &message) {
            Ok(verdict) => {
                self.enter_bit(driven, seen)?;
                let overrun = is_overrun(verdict);
                self.enter(verdict_entry(verdict, message))?;
                Ok(overrun)
            }
            Err(Busy) => Err(BusFault::Stuck(self.number())),
        }
    }
}

/// The message of a received frame that passes the filter of the activation that runs; built once for all receivers of
/// a bit.
pub(crate) fn passing(
    activity: &Activity,
    received: &Option<Frame>,
    row: &mut RowFrame,
) -> Option<Message>
    ensures { (f : Filtering) → activity.now ≡ Running f → IsPassing f received.now result }
{
    let Some(frame) = received else {
        return None;
    };
    let Activity::Running(filter) = activity else {
        return None;
    };
    if filter.passes(frame) {
        Some(row.message_of(frame))
    } else {
        None
    }
}

/// Judges a message, and puts it where it fits.
///
/// Error: [`Busy`] where the end gave it back each time; the ledger is unchanged.
fn accept<E: BusEnd>(
    ledger: &mut BusLedger,
    end: &mut E,
    message: &Message,
) -> Result<Verdict, Busy>
    requires { E.node end.old ≡ (link_of ledger.old).node }
    ensures id { link_of ledger.new ≡ link_of ledger.old }
    ensures same { E.same end.old end.new }
    ensures others { OthersStand E.stands (activation_of ledger.old) end.old end.new }
    ensures puts { IfOk result (λ v. Carries E.stands (activation_of ledger.old) end.old end.new
        (λ l. with_entry l (entry_of v message.now))) }
    ensures judged { IfOk result (λ v. (p : List Entry) → IsFree p (free_in ledger.old) →
        IsFair p (entry_of v message.now) × IsFree (p ++ entry_of v message.now ∷ []) (free_in ledger.new)) }
    ensures busy { OnErr result (ledger.new ≡ ledger.old) }
    ensures back { OnErr result (IsGivenBack E.BusEnd (activation_of ledger.old) end.old) }
{
    for _ in 0..TRIES {
        if let Ok(verdict) = ledger.accept(end, message.copy()) {
            return Ok(verdict);
        }
    }
    Err(Busy)
}

/// The entry of a verdict.
fn verdict_entry(verdict: Verdict, message: Message) -> Entry
    ensures { result ≡ entry_of verdict message }
{
    match verdict {
        Verdict::Stored => Entry::Stored(message),
        Verdict::Overrun => Entry::Overrun(message),
    }
}

/// Whether it says that the message found no room.
fn is_overrun(verdict: Verdict) -> bool
    ensures { (m : List ℕ) → result ≡ overruns (Some (verdict, m)) }
{
    match verdict {
        Verdict::Stored => false,
        Verdict::Overrun => true,
    }
}
