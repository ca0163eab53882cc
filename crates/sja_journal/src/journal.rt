//! [`Journal`]: what the bus wrote of a node in a run.

ghost use Rattle.std.specs.Prelude.{◌≡◌, ◌<◌, ◌^◌, length};
ghost use Rattle.sja_journal.specs.Between.{between_bits};

use super::between_bits::BetweenBits;
use super::entries::Entries;
use super::recorder::Recorder;
use std::marker::Model;

/// What the bus wrote of one node in a run, oldest first, to be read: all its entries are kept (this project's own
/// rule).
///
/// A [`Recorder`] writes it. Contracts see it as that does: the list of its entries, and for how many there was room.
#[derive(Debug, Drop)]
pub struct Journal {
    pub(crate) recorder: Recorder,
}

impl Model for Journal {
    ghost use Rattle.sja_journal.specs.BoundedHistories.{KeepsAll};
    ghost use Rattle.sja_journal.specs.Written.{Written};

    ghost Value = { Written };

    ghost view = { λ j. j.recorder };

    ghost invariant = { λ j. KeepsAll j.recorder.room.all };
}

impl Journal {
    /// The entries, oldest first.
    pub fn entries(&self) -> Entries<'_>
        ensures { result ≡ self.now.entries }
    {
        Entries::of(self)
    }

    /// The entries that are no bits, oldest first.
    pub fn between_bits(&self) -> BetweenBits<'_>
        ensures value { result ≡ between_bits self.now.entries }
        ensures few { length result < 2 ^ 64 }
    {
        BetweenBits::of(self)
    }
}
