//! A bit of a bus that broke off.

use sja_journal::BusFault;

/// A bit that broke off, after others.
#[derive(Debug, Drop)]
pub(crate) struct BrokenBit {
    /// How many bits were run before it.
    pub(crate) after: u32,
    pub(crate) fault: BusFault,
}
