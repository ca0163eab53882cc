//! [`Cursor`]: a journal gone over bit by bit.

ghost use Rattle.std.specs.Prelude.{◌≡◌};
ghost use Rattle.text_wave.specs.Inside.Cursors.{is_bit};

use super::signals::Signals;
use sja_journal::{Entries, Entry, Journal};

/// A journal gone over bit by bit: the entries that are left, and what the node's signals show at the last bit and
/// showed at the one before.
#[derive(Debug, Drop)]
pub(crate) struct Cursor<'a> {
    entries: Entries<'a>,
    pub(crate) showed: Signals,
    pub(crate) shows: Signals,
}

impl<'a> Cursor<'a> {
    ghost use Rattle.std.specs.Prelude.{◌≡◌, ◌<◌, ◌≤◌, true, false, []};
    ghost use Rattle.text_wave.specs.Inside.Cursors.{signals_of, stepped, advanced};
    ghost use Rattle.text_wave.specs.Inside.WaveRest.{CursorRests, rested_cursor};

    /// Before the first bit.
    pub(crate) fn of(journal: &'a Journal) -> Cursor<'a>
        ensures { result ≡ record { entries = journal.now.entries; showed = signals_of []; shows = signals_of [] } }
    {
        Cursor {
            entries: journal.entries(),
            showed: Signals::new(),
            shows: Signals::new(),
        }
    }

    /// Goes on past the next bit, or to the end where there is none.
    pub(crate) fn advance(&mut self)
        ensures { self.new ≡ advanced self.old }
    {
        self.showed = self.shows;
        if self.take_bit() {
            return;
        }
        self.take_entries();
    }

    /// Takes the next entry, where it is a bit. Answers whether it is.
    fn take_bit(&mut self) -> bool
        ensures taken { result ≡ true → self.new ≡ stepped self.old }
        ensures none { result ≡ false → self.new ≡ self.old }
    {
        match self.entries.next_bit() {
            Some((driven, seen)) => {
                self.shows.driven = driven;
                self.shows.seen = seen;
                true
            }
            None => false,
        }
    }

    /// Takes the entries up to the next bit, or all where there is none.
    fn take_entries(&mut self)
        ensures { self.new ≡ stepped self.old }
    {
        while let Some(entry) = self.entries.next() {
            self.shows.enter(&entry);
            if is_bit(&entry) {
                return;
            }
        }
    }

    /// For how many of the next bits, at most so many, nothing changes: the node drives and sees recessive on. It may
    /// be for more of them.
    pub(crate) fn rest_for(&self, most: u32) -> u32
        ensures most { result ≤ most }
        ensures rests { 0 < result → CursorRests result self.now }
    {
        if !self.shows.driven.is_recessive() || !self.shows.seen.is_recessive() {
            return 0;
        }
        self.entries.rest_bits(most as usize) as u32
    }

    /// Goes on past so many of these bits, one at least.
    pub(crate) fn rest(&mut self, count: u32)
        requires { CursorRests count self.old }
        ensures { self.new ≡ rested_cursor count self.old }
    {
        self.entries.skip_rest_bits(count as usize);
        self.showed = self.shows;
    }
}

/// Whether an entry is a bit.
fn is_bit(entry: &Entry) -> bool
    ensures { result ≡ is_bit entry.now }
{
    matches!(entry, Entry::Bit(_, _))
}
