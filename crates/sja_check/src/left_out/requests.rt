//! Requests that nobody acknowledged.

use can_node_rules::{Cause, Outcome};
use sja_journal::Journal;
use sja_replay::{BitEvent, Replay};

/// The last of so many bits in which nobody acknowledged the frame of the request that the node with this journal holds
/// at their end, where it was so.
pub(crate) fn unacknowledged_in(journal: &Journal, bits: u32) -> Option<u32> {
    let mut alone = None;
    let mut replay = Replay::of(journal);
    for _ in 0..bits {
        replay.pass_silent();
        let Some(bit_event) = replay.next() else {
            return alone;
        };
        alone = alone_after(alone, &bit_event);
    }
    alone
}

/// The same past one bit more.
fn alone_after(alone: Option<u32>, bit_event: &BitEvent) -> Option<u32> {
    if bit_event.after.held.is_none() {
        return None;
    }
    match (bit_event.events.ended, bit_event.events.fault) {
        (Some(Outcome::Sent), _) => None,
        (_, Some((Cause::Ack, _))) => Some(bit_event.bit),
        _ => alone,
    }
}
