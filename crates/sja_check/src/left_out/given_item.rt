//! [`GivenItem`]: what starts or stops a node.

use sja_journal::{Entry, Journal, Up};
use std::alloc::{AllocError, Global};

/// What a driver gave the bus that starts or stops its node, and that it went bus-off.
#[derive(Clone, Copy)]
pub(crate) enum GivenItem {
    /// An activation; in listen only mode where that is true.
    Start(bool),
    /// The end of one.
    Stop,
    /// No gift: the node went bus-off.
    Off,
}

/// A gift, with how many bits came before it.
#[derive(Clone, Copy)]
pub(crate) struct TimedGivenItem {
    /// What it is.
    pub(crate) given_item: GivenItem,
    /// How many bits came before it.
    pub(crate) bits: u32,
}

/// How many bits at rest are passed at once at most.
const MOST_AT_ONCE: usize = 1_000_000;

/// What the driver of a node gave by its journal, in order.
///
/// Error: [`AllocError`] where memory was refused.
pub(crate) fn given_items_in(
    alloc: Global,
    journal: &Journal,
) -> Result<Vec<TimedGivenItem>, AllocError> {
    let mut given_items = Vec::new(alloc);
    let mut bits = 0u32;
    let mut entries = journal.entries();
    while let Some(entry) = entries.next() {
        if let Entry::Bit(_, _) = entry {
            let rest = entries.rest_bits(MOST_AT_ONCE);
            entries.skip_rest_bits(rest);
            bits = bits.saturating_add(rest as u32).saturating_add(1);
        }
        if let Some(given_item) = given_item_in(&entry) {
            given_items.push(TimedGivenItem { given_item, bits })?;
        }
    }
    Ok(given_items)
}

/// What an entry of a journal says of it.
fn given_item_in(entry: &Entry) -> Option<GivenItem> {
    match entry {
        Entry::Up(Up::Start(config)) => Some(GivenItem::Start(config.listen)),
        Entry::Up(Up::Stop) => Some(GivenItem::Stop),
        Entry::Off => Some(GivenItem::Off),
        _ => None,
    }
}
