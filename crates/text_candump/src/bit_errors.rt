//! The error frame that a bit brings.

ghost use Rattle.std.specs.Prelude.{◌≡◌};
ghost use Rattle.text_candump.specs.BitErrors.{bit_error, interrupt_by, is_overrun, bus_error_of, change_in};
ghost use Rattle.text_candump.specs.BitErrors.{restart_error};

use super::bus_error::BusError;
use super::controller_state::ControllerState;
use super::error_frame::ErrorFrame;
use super::interrupt::Interrupt;
use can_node_rules::{BitEvents, Counters};
use sja_replay::{BitEvent, Reception};

/// The error frame of a bit, if it brings one.
pub(crate) fn bit_error(bit: &BitEvent) -> Option<ErrorFrame>
    ensures { result ≡ bit_error bit.now }
{
    if bit.events.went_off {
        return Some(ErrorFrame::BusOff);
    }
    if bit.events.recovered {
        return Some(ErrorFrame::Restarted);
    }
    let interrupt = interrupt_of(bit);
    if interrupt.tells() {
        Some(ErrorFrame::Told(interrupt))
    } else {
        None
    }
}

/// The error frame of a restart right before a bit, if there is one: the driver ended the bus-off that the bits before
/// left. These are the counters as they left them, and as they are before the bit.
pub(crate) fn restart_error(left: Counters, before: Counters) -> Option<ErrorFrame>
    ensures { result ≡ restart_error left before }
{
    if left.off && !before.off {
        Some(ErrorFrame::Restarted)
    } else {
        None
    }
}

/// What came with the bit.
fn interrupt_of(bit: &BitEvent) -> Interrupt
    ensures { result ≡ interrupt_by bit.now.events (is_overrun bit.now.reception) (change_in bit.now)
        bit.now.after.counters }
{
    let before = ControllerState::of(bit.before.counters);
    let after = ControllerState::of(bit.after.counters);
    Interrupt {
        lost: bit.events.lost,
        overrun: is_overrun(bit.reception),
        bus_error: bus_error_of(&bit.events),
        change: before.changed(after),
        counters: bit.after.counters,
    }
}

/// The fault of a bit.
fn bus_error_of(events: &BitEvents) -> Option<BusError>
    ensures { result ≡ bus_error_of events.now.fault events.now.receiving }
{
    let (cause, segment) = events.fault?;
    Some(BusError {
        cause,
        segment,
        receiving: events.receiving,
    })
}

/// Whether a message was overrun.
fn is_overrun(reception: Option<Reception>) -> bool
    ensures { result ≡ is_overrun reception }
{
    match reception {
        Some(Reception::Overrun { .. }) => true,
        Some(Reception::Stored | Reception::Stopped) | None => false,
    }
}
