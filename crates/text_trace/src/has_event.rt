//! Which events a bit has.

ghost use Rattle.std.specs.Prelude.{◌≡◌, ◌&&◌, not};
ghost use Rattle.can_levels.specs.Places.{are_same};
ghost use Rattle.can_node_rules.specs.Context.{is_held};
ghost use Rattle.text_trace.specs.Events.{is_dominant, is_frame, is_flag, is_start_in, has_fault, flag_begins};
ghost use Rattle.text_trace.specs.BitEvents.{begins_suspension};

use can_levels::{Level, Segment};
use can_node_rules::{Cause, Phase, Request};
use sja_replay::BitEvent;

/// Whether a request is held.
pub(crate) fn is_held(held: &Option<Request>) -> bool
    ensures { result ≡ is_held held.now }
{
    match held {
        Some(_) => true,
        None => false,
    }
}

/// Whether two levels are equal.
pub fn is_same(level: Level, other: Level) -> bool
    ensures { result ≡ are_same level other }
{
    match level {
        Level::Dominant => is_dominant(other),
        Level::Recessive => !is_dominant(other),
    }
}

/// Whether a level is dominant.
pub(crate) fn is_dominant(level: Level) -> bool
    ensures { result ≡ is_dominant level }
{
    matches!(level, Level::Dominant)
}

/// Whether the next bit belongs to a frame.
pub fn is_frame(phase: Phase) -> bool
    ensures { result ≡ is_frame phase }
{
    matches!(phase, Phase::Frame)
}

/// Whether it belongs to a flag.
fn is_flag(phase: Phase) -> bool
    ensures { result ≡ is_flag phase }
{
    matches!(phase, Phase::Flag)
}

/// Whether the bit is the SOF of a frame.
pub fn is_start(bit: &BitEvent) -> bool
    ensures { result ≡ is_start_in bit.now.before.phase bit.now }
{
    match bit.before.phase {
        Phase::Idle => is_dominant(bit.driven) || is_dominant(bit.seen),
        Phase::Intermission | Phase::Suspension => is_frame(bit.after.phase),
        _ => false,
    }
}

/// Whether a receiver acknowledges a frame.
pub(crate) fn acknowledges(bit: &BitEvent) -> bool
    ensures { result ≡ (is_frame bit.now.before.phase && not bit.now.before.transmits
        && is_dominant bit.now.driven) }
{
    is_frame(bit.before.phase) && !bit.before.transmits && is_dominant(bit.driven)
}

/// Whether there is a fault.
fn has_fault(fault: Option<(Cause, Segment)>) -> bool
    ensures { result ≡ has_fault fault }
{
    match fault {
        Some(_) => true,
        None => false,
    }
}

/// Whether a flag begins with the next bit.
pub(crate) fn flag_begins(bit: &BitEvent) -> bool
    ensures { result ≡ flag_begins bit.now }
{
    is_flag(bit.after.phase) && (!is_flag(bit.before.phase) || has_fault(bit.events.fault))
}

/// Whether suspend transmission begins.
pub(crate) fn begins_suspension(before: Phase, after: Phase) -> bool
    ensures { result ≡ begins_suspension before after }
{
    match before {
        Phase::Intermission => matches!(after, Phase::Suspension),
        _ => false,
    }
}
