//! Whether nothing is said of a bit in short.

ghost use Rattle.std.specs.Prelude.{◌≡◌, ◌&&◌, not, Bool, true, []};
ghost use Rattle.text_trace.specs.Causes.{all_said};
ghost use Rattle.text_trace.specs.Events.{is_dominant, is_frame};
ghost use Rattle.text_trace.specs.Hands.{bit_event_of};

use super::counters::have_same;
use super::has_event::{is_dominant, is_frame, is_same};
use can_levels::Level;
use can_node_rules::Counters;
use sja_replay::ShortBit;

/// Whether the node saw what the bus had, began with the counters that the bits before left, and neither may have begun
/// a frame with the bit nor acknowledged one. Then nothing is said of the bit.
#[tactic(auto, using(crate::proofs::BitSaid::Shorts::plain_none))]
pub(crate) fn is_plain(bus: Level, left: Counters, bit: &ShortBit) -> bool
    ensures { result ≡ true → (by_bytes : Bool) → all_said by_bytes bus left (bit_event_of bit.now) ≡ [] }
{
    if !is_same(bit.seen, bus) || !have_same(left, bit.counters) {
        return false;
    }
    if bit.may_start() || acknowledges(bit) {
        return false;
    }
    true
}

/// Whether a receiver acknowledges a frame.
fn acknowledges(bit: &ShortBit) -> bool
    ensures { result ≡ (is_frame bit.now.phase && not bit.now.transmits && is_dominant bit.now.driven) }
{
    is_frame(bit.phase) && !bit.transmits && is_dominant(bit.driven)
}
