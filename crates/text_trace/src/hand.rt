//! The bit at hand of a node, in short where it told nothing.

ghost use Rattle.std.specs.Prelude.{◌≡◌, [], true};
ghost use Rattle.text_trace.specs.Causes.{all_said};
ghost use Rattle.text_trace.specs.Hands.{counters_of, driven_of, view_of, bit_event_of};

use super::counters::{counters_after, have_same};
use super::has_event::{acknowledges, is_same};
use super::node_traces::driven_in;
use can_levels::Level;
use can_node_rules::{BitEvents, Counters};
use sja_replay::{BitEvent, ShortBit, View};

/// The error counters as the bit left them; both 0 where there is none.
pub fn counters_of(short: &Option<ShortBit>, bit: &Option<BitEvent>) -> Counters
    ensures { result ≡ counters_of short.now bit.now }
{
    match short {
        Some(short) => short.counters,
        None => counters_after(bit),
    }
}

/// Keeps them.
#[inline(always)]
pub(crate) fn keep_counters(
    counters: &mut Counters,
    short: &Option<ShortBit>,
    bit: &Option<BitEvent>,
)
    ensures { counters.new ≡ counters_of short.now bit.now }
{
    match short {
        Some(short) => *counters = short.counters,
        None => *counters = counters_after(bit),
    }
}

/// The level that the node drove in it; recessive where there is none.
pub fn driven_of(short: &Option<ShortBit>, bit: &Option<BitEvent>) -> Level
    ensures { result ≡ driven_of short.now bit.now }
{
    match short {
        Some(short) => short.driven,
        None => driven_in(bit),
    }
}

/// What the node showed before the bit, but for a request, and after it too.
fn view_of(bit: &ShortBit) -> View
    ensures { result ≡ view_of bit.now }
{
    View {
        phase: bit.phase,
        segment: bit.segment,
        transmits: bit.transmits,
        counters: bit.counters,
        held: None,
        flag: bit.flag,
    }
}

/// A bit event of which as much is said as of the bit.
pub(crate) fn bit_event_of(bit: &ShortBit) -> BitEvent
    ensures { result ≡ bit_event_of bit.now }
{
    BitEvent {
        bit: 0,
        driven: bit.driven,
        seen: bit.seen,
        aborted: false,
        before: view_of(bit),
        events: BitEvents {
            received: None,
            ended: None,
            lost: None,
            fault: None,
            receiving: !bit.transmits,
            went_off: false,
            recovered: false,
        },
        after: view_of(bit),
        reception: None,
    }
}
