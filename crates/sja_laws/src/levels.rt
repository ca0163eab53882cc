//! Laws of the levels on the bus.

ghost use Rattle.std.specs.Prelude.{◌≡◌, ◌<◌, ℕ, List, length};
ghost use Rattle.can_levels.specs.declared.level.Level.{Level};
ghost use Rattle.can_node_rules.specs.Cut.{FinishedPiece, IsCut};
ghost use Rattle.can_node_rules.specs.NextBit.{DrivesIn};
ghost use Rattle.can_node_rules.specs.Record.{RecordEntry};
ghost use Rattle.sja_journal.specs.declared.entry.Entry.{Entry};
ghost use Rattle.sja_steps.specs.declared.strike.Strike.{Strike};
ghost use Rattle.sja_bus_rules.specs.Wire.{IsWired, bit_at, journal_at};

/// A law: the level that a node drives next is a function of its record.
pub fn a_record_drives_one_level()
    ensures { (entries : List RecordEntry) (found others : List FinishedPiece) (h : IsCut entries found)
        (k : IsCut entries others) (x y : Level) → DrivesIn h x → DrivesIn k y → x ≡ y }
{}

/// A law: what each node sees in a bit is a function of what all drive in it and of the strikes. So of two buses with
/// one script, whose nodes drive alike in a bit, each node sees the same in it.
pub fn what_all_drive_is_what_each_sees()
    ensures { (script : List Strike) (bits others i node : ℕ) (a b : List (List Entry)) → IsWired script bits a
        → IsWired script others b → length a ≡ length b → i < bits → i < others → node < length a → node < length b
        → ((n : ℕ) → n < length a → (bit_at i (journal_at a n)).driven ≡ (bit_at i (journal_at b n)).driven)
        → (bit_at i (journal_at a node)).seen ≡ (bit_at i (journal_at b node)).seen }
{}
