//! The entries of a journal, one after another.

ghost use Rattle.std.specs.Prelude.{◌≡◌};

use super::code::Code;
use super::entry::Entry;
use super::journal::Journal;
use can_levels::Level;
use std::marker::Model;

/// The entries of a journal, one after another, oldest first. Contracts see it as the list of those that are left.
#[derive(Debug, Drop)]
pub struct Entries<'a> {
    pub(crate) codes: &'a [Code],
    others: &'a [Entry],
}

impl<'a> Model for Entries<'a> {
    ghost use Rattle.std.specs.Prelude.{List};
    ghost use Rattle.sja_journal.specs.declared.entry.Entry.{Entry};

    ghost Value = { List Entry };

    ghost use Rattle.sja_journal.specs.Inside.Codes.{decoded, AreWhole};

    ghost view = { λ s. decoded s.codes.now s.others.now };

    ghost invariant = { λ s. AreWhole s.codes.now s.others.now };
}

impl<'a> Entries<'a> {
    ghost use Rattle.std.specs.Prelude.{◌≡◌, ◌∷◌, None, IfSome};
    ghost use Rattle.sja_journal.specs.declared.entry.Entry.TheVariants.{Bit};

    /// The entries of a journal.
    pub(crate) fn of(journal: &'a Journal) -> Entries<'a>
        ensures { result ≡ journal.now.entries }
    {
        let recorder = &journal.recorder;
        Entries {
            codes: recorder.codes.as_slice(),
            others: recorder.others.as_slice(),
        }
    }

    /// The levels of the next entry, where it is a bit, which is taken then: the one that the node drove, and the one
    /// that it saw. Else nothing changes.
    #[inline(always)]
    pub fn next_bit(&mut self) -> Option<(Level, Level)>
        ensures bit { IfSome result (λ p. self.old ≡ Bit (p.0) (p.1) ∷ self.new) }
        ensures none { result ≡ None → self.new ≡ self.old }
    {
        let (code, codes) = self.codes.split_first()?;
        let levels = match code {
            Code::DominantAsDriven => (Level::Dominant, Level::Dominant),
            Code::DominantSeenRecessive => (Level::Dominant, Level::Recessive),
            Code::RecessiveSeenDominant => (Level::Recessive, Level::Dominant),
            Code::RecessiveAsDriven => (Level::Recessive, Level::Recessive),
            Code::Other => return None,
        };
        self.codes = codes;
        Some(levels)
    }
}

impl<'a> Iterator for Entries<'a> {
    ghost use Rattle.std.specs.Iterator.{YieldsFirst, item_count};

    type Item = Entry;

    ghost next_gives = { YieldsFirst (λ s. s) };

    ghost remaining = { item_count (λ s. s) };

    /// An equal of the next entry.
    fn next(&mut self) -> Option<Entry> {
        let (code, codes) = self.codes.split_first()?;
        let code = *code;
        self.codes = codes;
        match code {
            Code::DominantAsDriven => Some(Entry::Bit(Level::Dominant, Level::Dominant)),
            Code::DominantSeenRecessive => Some(Entry::Bit(Level::Dominant, Level::Recessive)),
            Code::RecessiveSeenDominant => Some(Entry::Bit(Level::Recessive, Level::Dominant)),
            Code::RecessiveAsDriven => Some(Entry::Bit(Level::Recessive, Level::Recessive)),
            Code::Other => {
                let (entry, left) = self.others.split_first()?;
                self.others = left;
                Some(entry.copy())
            }
        }
    }
}
