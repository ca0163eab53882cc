//! The entries of a journal that stand between its bits.

use super::entry::Entry;
use super::journal::Journal;
use std::marker::Model;

/// The entries of a journal that are no bits, one after another, oldest first. Contracts see it as the list of those
/// that are left.
///
/// A run has hundreds of thousands of bits and some thousands of other entries at most: no bit is looked at.
#[derive(Debug, Drop)]
pub struct BetweenBits<'a> {
    others: &'a [Entry],
}

impl<'a> Model for BetweenBits<'a> {
    ghost use Rattle.std.specs.Prelude.{List};
    ghost use Rattle.sja_journal.specs.declared.entry.Entry.{Entry};

    ghost Value = { List Entry };

    ghost view = { λ s. s.others.now };
}

impl<'a> BetweenBits<'a> {
    ghost use Rattle.std.specs.Prelude.{◌≡◌, ◌<◌, ◌^◌, length};
    ghost use Rattle.sja_journal.specs.Between.{between_bits};

    /// The entries of a journal that are no bits.
    pub(crate) fn of(journal: &'a Journal) -> BetweenBits<'a>
        ensures value { result ≡ between_bits journal.now.entries }
        ensures few { length result < 2 ^ 64 }
    {
        let recorder = &journal.recorder;
        // How many they are is a `usize`.
        let _others = recorder.others.len();
        BetweenBits {
            others: recorder.others.as_slice(),
        }
    }
}

impl<'a> Iterator for BetweenBits<'a> {
    ghost use Rattle.std.specs.Iterator.{YieldsFirst, item_count};

    type Item = Entry;

    ghost next_gives = { YieldsFirst (λ s. s) };

    ghost remaining = { item_count (λ s. s) };

    /// An equal of the next entry that is no bit.
    fn next(&mut self) -> Option<Entry> {
        let (entry, left) = self.others.split_first()?;
        self.others = left;
        Some(entry.copy())
    }
}
