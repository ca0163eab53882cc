//! Laws of links and journals.

ghost use Rattle.std.specs.Prelude.{◌≡◌, ℕ, List, ◌++◌};
ghost use Rattle.sja_journal.specs.declared.down.Down.{Down};
ghost use Rattle.sja_journal.specs.declared.entry.Entry.{Entry};
ghost use Rattle.sja_link.specs.declared.event.Event.{Event};
ghost use Rattle.sja_journal.specs.Lists.{messages};
ghost use Rattle.sja_journal.specs.Parts.{part};
ghost use Rattle.sja_journal.specs.Carried.{put_of, stored_of};
ghost use Rattle.sja_journal.specs.Accounts.{Account};
ghost use Rattle.sja_journal.specs.Judged.{judged_in, kept};
ghost use Rattle.sja_link.specs.Looking.{Holds};
ghost use Rattle.sja_link.specs.World.{WorldValue};
ghost use Rattle.sja_link.specs.WorldEvents.{Reached};
ghost use Rattle.sja_link.specs.Budget.{IsBudget};

/// A law: whatever events lead to a world of one link, what was got is a front of what was put and what was taken of
/// what was given, the 64 bytes are free or held or on the way back, and no more items lie on the link than it has room
/// for.
pub fn every_world_keeps_its_budget()
    ensures { (events : List Event) (w : WorldValue) → Reached events w → IsBudget w }
{}

/// A law: the messages that were judged in an activation and not marked overrun are those that its part stored.
pub fn what_was_kept_was_stored()
    ensures { (j : List Entry) (a : ℕ) → kept (judged_in j a) ≡ stored_of (part j a) }
{}

/// A law: where the bus put what the driver got followed by what still lies there, what the driver released, followed
/// by what it holds and the messages that lie there, is what was stored.
pub fn what_was_released_and_left_was_stored()
    ensures { (j : List Entry) (a : ℕ) (driver : Account) (down : List Down) (released held : List (List ℕ)) →
        put_of (part j a) ≡ driver.got ++ down → Holds driver.got released held →
        released ++ (held ++ messages down) ≡ stored_of (part j a) }
{}
