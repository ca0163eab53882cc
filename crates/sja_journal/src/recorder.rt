//! [`Recorder`]: the journal of a node as it is written.

ghost use Rattle.std.specs.Prelude.{◌≡◌, ◌<◌, ◌≤◌, ◌-◌, ◌^◌, [], ◌∷◌, ◌++◌};
ghost use Rattle.std.specs.Prelude.{length, replicate, true, false, IfOk, IfErr, OnOk, OnErr};
ghost use Rattle.can_levels.specs.declared.level.Level.TheVariants.{Recessive};
ghost use Rattle.sja_journal.specs.declared.entry.Entry.TheVariants.{Bit};
ghost use Rattle.std.specs.Simd.Lanes.{zip2};
ghost use Rattle.sja_journal.specs.BoundedHistories.{KeepsAll};
ghost use Rattle.sja_journal.specs.Written.{Fits, IsFullFor, room_in};
ghost use Rattle.sja_journal.specs.Inside.Codes.{IsOther};

use super::bounded_history::{BoundedHistory, HISTORY_LIMIT};
use super::code::Code;
use super::endless::Endless;
use super::entry::Entry;
use super::full::Full;
use super::journal::Journal;
use can_frame::OutOfMemory;
use can_levels::Level;
use std::alloc::Global;
use std::marker::Model;

/// How many codes, of a byte each, are kept at once where there are more than [`HISTORY_LIMIT`](super::HISTORY_LIMIT)
/// (this project's own rule).
const CODES: usize = 65_536;

/// What the bus writes of one node as a run goes on, oldest first: the writing half of a [`Journal`] (this project's
/// own rule).
///
/// All its room is reserved when it is made. An entry takes one byte, and those that are no bits lie in a list of their
/// own, which has a room of its own. A recorder that is made for more than [`HISTORY_LIMIT`](super::HISTORY_LIMIT)
/// entries keeps the latest ones. Contracts see it as the list of all its entries, and how many it has room for.
#[derive(Debug, Drop)]
pub struct Recorder {
    pub(crate) codes: BoundedHistory<Code>,
    pub(crate) others: BoundedHistory<Entry>,
}

impl Model for Recorder {
    ghost use Rattle.std.specs.Prelude.{◌≤◌, length};
    ghost use Rattle.sja_journal.specs.Written.{Written};

    ghost Value = { Written };

    ghost use Rattle.sja_journal.specs.Inside.Codes.{decoded, AreWhole};

    ghost view = { λ r. record {
      entries = decoded r.codes.items r.others.items;
      room = record { all = r.codes.room; others = r.others.room };
    } };

    ghost invariant = { λ r. AreWhole r.codes.items r.others.items × (length r.others.items ≤ r.others.room)
        × (r.others.room ≤ r.codes.room) };
}

impl Recorder {
    /// An empty one with room for a run of so many bits in which the driver does so many steps: for an entry a bit,
    /// and of the others for one for each 42 bits, as many as a frame has that is received, two a step, and 100 more.
    /// Numbers of 32 bits are as few as it asks.
    ///
    /// Error: [`OutOfMemory`] where memory was refused.
    pub fn new(alloc: Global, bits: u64, steps: u64) -> Result<Recorder, OutOfMemory>
        requires bits { bits ≤ 2 ^ 62 }
        requires steps { steps ≤ 2 ^ 58 }
        ensures empty { IfOk result (λ j. j.entries ≡ []) }
        ensures room { IfOk result (λ j. j.room ≡ room_in bits steps) }
    {
        let others = bits as usize / 42 + 2 * steps as usize + 100;
        Ok(Recorder {
            codes: BoundedHistory::keeping(alloc, bits as usize + others, CODES)?,
            others: BoundedHistory::new(alloc, others)?,
        })
    }

    /// Adds an entry.
    ///
    /// Error: the entry comes back where the reserved entries are used, or those that may be no bits; nothing changed.
    pub fn enter(&mut self, entry: Entry) -> Result<(), Entry>
        ensures room { self.new.room ≡ self.old.room }
        ensures ok { OnOk result ((self.new.entries ≡ self.old.entries ++ entry ∷ [])
            × Fits self.old.room (self.old.entries ++ entry ∷ [])) }
        ensures back { IfErr result (λ e. (e ≡ entry) × (self.new ≡ self.old)
            × IsFullFor self.old.room self.old.entries entry) }
    {
        if self.is_full_for(&entry) {
            return Err(entry);
        }
        match entry {
            Entry::Bit(driven, seen) => self.enter_bit_reserved(driven, seen),
            other => self.push_other(other),
        }
        Ok(())
    }

    /// Adds a bit: the level that the node drove, and the one that it saw.
    ///
    /// Error: [`Full`] where the reserved entries are used; nothing changed.
    pub fn enter_bit(&mut self, driven: Level, seen: Level) -> Result<(), Full>
        ensures room { self.new.room ≡ self.old.room }
        ensures ok { OnOk result ((self.new.entries ≡ self.old.entries ++ Bit driven seen ∷ [])
            × (length self.old.entries < self.old.room.all)) }
        ensures full { OnErr result ((self.new ≡ self.old) × (self.old.room.all ≤ length self.old.entries)) }
    {
        if self.is_full() {
            return Err(Full);
        }
        self.enter_bit_reserved(driven, seen);
        Ok(())
    }

    /// Adds a bit where an entry is free: the level that the node drove, and the one that it saw.
    #[inline(always)]
    pub fn enter_bit_reserved(&mut self, driven: Level, seen: Level)
        requires free { length self.old.entries < self.old.room.all }
        ensures room { self.new.room ≡ self.old.room }
        ensures entries { self.new.entries ≡ self.old.entries ++ Bit driven seen ∷ [] }
    {
        self.codes.push(Code::of_bit(driven, seen));
    }

    /// Adds so many bits that the node drove and saw recessive, where as many entries are free. They are written at
    /// once.
    pub fn enter_rest_reserved(&mut self, count: u32)
        requires free { count ≤ self.old.room.all - length self.old.entries }
        ensures room { self.new.room ≡ self.old.room }
        ensures entries { self.new.entries ≡ self.old.entries ++ replicate count (Bit Recessive Recessive) }
    {
        self.codes
            .push_copies(count as usize, Code::RecessiveAsDriven);
    }

    /// Adds bits, of each the level that the node drove and the one that it saw, where as many entries are free.
    pub fn enter_bits_reserved(&mut self, driven: &[Level], seen: &[Level])
        requires each { length driven.now ≡ length seen.now }
        requires free { length seen.now ≤ self.old.room.all - length self.old.entries }
        ensures room { self.new.room ≡ self.old.room }
        ensures entries { self.new.entries ≡ self.old.entries ++ zip2 Bit driven.now seen.now }
    {
        self.codes.push_bits(driven, seen);
    }

    /// How many reserved entries are free.
    pub fn free(&self) -> usize
        ensures { result ≡ self.now.room.all - length self.now.entries }
    {
        self.codes.free()
    }

    /// Whether a bit more can be entered and nothing is forgotten.
    #[inline(always)]
    pub fn is_open(&self) -> bool
        ensures { result ≡ true → length self.now.entries < self.now.room.all }
    {
        self.codes.is_open()
    }

    /// The journal that was written, to be read.
    ///
    /// Error: [`Endless`] where it was made for more than [`HISTORY_LIMIT`](super::HISTORY_LIMIT) entries.
    pub fn into_journal(self) -> Result<Journal, Endless>
        ensures journal { IfOk result (λ j. j ≡ self) }
        ensures kept { OnOk result (KeepsAll self.room.all) }
        ensures endless { OnErr result (KeepsAll self.room.all → ⊥) }
    {
        if self.codes.room() > HISTORY_LIMIT {
            return Err(Endless);
        }
        Ok(Journal { recorder: self })
    }

    /// Whether the reserved entries are used.
    #[inline(always)]
    fn is_full(&self) -> bool
        ensures full { result ≡ true → self.now.room.all ≤ length self.now.entries }
        ensures room { result ≡ false → length self.now.entries < self.now.room.all }
    {
        self.codes.is_full()
    }

    /// Whether there is no room for this entry.
    fn is_full_for(&self, entry: &Entry) -> bool
        ensures full { result ≡ true → IsFullFor self.now.room self.now.entries entry.now }
        ensures room { result ≡ false → Fits self.now.room (self.now.entries ++ entry.now ∷ []) }
    {
        match entry {
            Entry::Bit(..) => self.is_full(),
            _ => self.is_full() || self.others.is_full(),
        }
    }

    /// Adds an entry that is no bit, where there is room for it.
    fn push_other(&mut self, entry: Entry)
        requires room { Fits self.old.room (self.old.entries ++ entry ∷ []) }
        requires other { IsOther entry }
        ensures room { self.new.room ≡ self.old.room }
        ensures entries { self.new.entries ≡ self.old.entries ++ entry ∷ [] }
    {
        self.others.push(entry);
        self.codes.push(Code::Other);
    }
}
