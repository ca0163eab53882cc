//! Laws of the bit events of a journal. Each is the contract of a function that does nothing.

ghost use Rattle.std.specs.Prelude.{◌≡◌, List};
ghost use Rattle.sja_journal.specs.declared.entry.Entry.{Entry};
ghost use Rattle.sja_replay.specs.declared.bit_event.BitEvent.{BitEvent as Brought};
ghost use Rattle.sja_replay.specs.Happened.{Happened};

/// A law: after a journal the entries that are left have one list of bit events.
#[tactic(auto, using(crate::proofs::Once::Lists::happened_once))]
pub fn a_journal_has_one_list_of_bit_events()
    ensures { (before left : List Entry) (hs others : List Brought) → Happened before left hs
        → Happened before left others → hs ≡ others }
{}
