//! What the entries of one activation come to.

ghost use Rattle.std.specs.Prelude.{◌<◌, ◌^◌};

use can_frame::Message;
use sja_journal::{Entry, RECEIVE_FIFO, Up};
use std::alloc::{AllocError, Global};

/// What the entries of one activation come to.
///
/// A journal has fewer than 2^64 entries of at most 255 bytes each, so the sums fit.
#[derive(Debug, Drop)]
pub(crate) struct Tally {
    /// How many messages were stored.
    pub(crate) stored: u64,
    /// The messages that were overrun, in order.
    pub(crate) overrun: Vec<Message>,
    /// The bytes that were stored.
    pub(crate) bytes: u128,
    /// The bytes that were given back.
    pub(crate) credits: u128,
    ghost fits: { credits < 2 ^ 127 },
}

impl Tally {
    ghost use Rattle.std.specs.Prelude.{◌≡◌, ◌≤◌, ◌+◌, OnOk};
    ghost use Rattle.text_report.specs.Inside.Tallies.{tally_value, no_tally, free_by, with_entry};

    /// Of an activation without entries.
    pub(crate) fn new(alloc: Global) -> Tally
        ensures { tally_value result ≡ no_tally }
    {
        Tally {
            stored: 0,
            overrun: Vec::new(alloc),
            bytes: 0,
            credits: 0,
        }
    }

    /// With an entry more.
    pub(crate) fn enter(&mut self, entry: Entry) -> Result<(), AllocError>
        requires stored { self.old.stored + 1 < 2 ^ 64 }
        requires bytes { self.old.bytes + 255 < 2 ^ 128 }
        requires credits { self.old.credits + 255 < 2 ^ 127 }
        ensures value { OnOk result (tally_value self.new ≡ with_entry (tally_value self.old) entry) }
        ensures small { (self.new.stored ≤ self.old.stored + 1) × (self.new.bytes ≤ self.old.bytes + 255)
            × (self.new.credits ≤ self.old.credits + 255) }
    {
        match entry {
            Entry::Stored(message) => {
                self.stored += 1;
                self.bytes += message.len() as u128;
            }
            Entry::Overrun(message) => self.overrun.push(message)?,
            Entry::Up(Up::Credit(bytes)) => self.credits += u128::from(bytes),
            _ => (),
        }
        Ok(())
    }

    /// The bytes that are free: 64, less those stored, and those given back.
    pub(crate) fn free(&self) -> u128
        ensures { result ≡ free_by (tally_value self.now) }
    {
        (u128::from(RECEIVE_FIFO) + self.credits).saturating_sub(self.bytes)
    }
}
