//! What is left of a bus at the end.

use can_frame::Message;
use can_levels::Level;
use sja_bus::NodeLog;
use sja_journal::{Entry, Journal, Up};

/// How many messages a journal stored, and how many it lost as overrun.
pub fn verdicts_in(journal: &Journal) -> (u32, u32) {
    let mut stored = 0u32;
    let mut overrun = 0u32;
    for entry in journal.entries() {
        match entry {
            Entry::Stored(_) => stored = stored.wrapping_add(1),
            Entry::Overrun(_) => overrun = overrun.wrapping_add(1),
            _ => {}
        }
    }
    (stored, overrun)
}

/// How many entries a journal has.
pub fn entries_in(journal: &Journal) -> u32 {
    let mut entries = 0u32;
    for _ in journal.entries() {
        entries = entries.wrapping_add(1);
    }
    entries
}

/// How many bits a journal has.
pub fn bits_in(journal: &Journal) -> u32 {
    let mut bits = 0u32;
    for entry in journal.entries() {
        if let Entry::Bit(_, _) = entry {
            bits = bits.wrapping_add(1);
        }
    }
    bits
}

/// How many messages a journal stored in the first activation and in the second.
pub fn stored_by_activation(journal: &Journal) -> (u32, u32) {
    let mut first = 0u32;
    let mut second = 0u32;
    let mut starts = 0u32;
    for entry in journal.entries() {
        match entry {
            Entry::Up(Up::Start(_)) => starts = starts.wrapping_add(1),
            Entry::Stored(_) if starts == 1 => first = first.wrapping_add(1),
            Entry::Stored(_) if starts == 2 => second = second.wrapping_add(1),
            _ => {}
        }
    }
    (first, second)
}

/// The first message that a journal stored.
pub fn first_in(journal: &Journal) -> Option<Message> {
    for entry in journal.entries() {
        if let Entry::Stored(message) = entry {
            return Some(message.copy());
        }
    }
    None
}

/// Whether a journal ends with bus-off.
pub fn ends_off(journal: &Journal) -> bool {
    let mut off = false;
    for entry in journal.entries() {
        off = matches!(&entry, Entry::Off);
    }
    off
}

/// The first bit from this one on in which the node saw a dominant level.
pub fn next_dominant(journal: &Journal, from: u32) -> Option<u32> {
    let mut bit = 0u32;
    for entry in journal.entries() {
        if let Entry::Bit(_, seen) = entry {
            if seen == Level::Dominant && bit >= from {
                return Some(bit);
            }
            bit = bit.wrapping_add(1);
        }
    }
    None
}

/// Whether what is left of two buses is the same: as many nodes, each with the same entries and the same counters.
pub fn are_same_logs(logs: &[NodeLog], others: &[NodeLog]) -> bool {
    if logs.len() != others.len() {
        return false;
    }
    for (log, other) in logs.iter().zip(others.iter()) {
        let counters = log.txerr == other.txerr && log.rxerr == other.rxerr;
        if !counters || !are_same(&log.journal, &other.journal) {
            return false;
        }
    }
    true
}

/// Whether two journals have the same entries.
fn are_same(one: &Journal, other: &Journal) -> bool {
    let mut others = other.entries();
    for entry in one.entries() {
        if others.next() != Some(entry) {
            return false;
        }
    }
    others.next().is_none()
}
