//! [`Between`]: what a journal says between its bits.

ghost use Rattle.std.specs.Prelude.{◌≡◌, IfOk};
ghost use Rattle.sja_journal.specs.Carried.{overrun_of};
ghost use Rattle.sja_sweep.specs.Changes.{times_off};

use can_frame::Message;
use sja_journal::{Entry, Journal};
use std::alloc::{AllocError, Global};

/// What a journal says between its bits.
#[derive(Drop)]
pub(crate) struct Between {
    /// The messages that were overrun, in order.
    pub(crate) overrun: Vec<Message>,
    /// How often the node went bus-off.
    pub(crate) off: u64,
}

/// What a journal says between its bits, in one pass.
pub(crate) fn between_of(alloc: Global, journal: &Journal) -> Result<Between, AllocError>
    ensures overrun { IfOk result (λ b. b.overrun.items ≡ overrun_of journal.now.entries) }
    ensures off { IfOk result (λ b. b.off ≡ times_off journal.now.entries) }
{
    let mut overrun = Vec::new(alloc);
    let mut off = 0u64;
    for entry in journal.between_bits() {
        match entry {
            Entry::Overrun(message) => overrun.push(message)?,
            Entry::Off => off += 1,
            _ => (),
        }
    }
    Ok(Between { overrun, off })
}
