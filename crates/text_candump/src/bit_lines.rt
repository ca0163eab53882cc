//! The lines of a bit of a node.

ghost use Rattle.std.specs.Prelude.{◌≡◌, ◌++◌, string_bytes, OnOk};
ghost use Rattle.text_candump.specs.CandumpText.{bit_lines, restart_line, stored_line, stored_frame};
ghost use Rattle.text_candump.specs.Inside.CandumpProgress.{hand_lines};

use super::bit_errors::{bit_error, restart_error};
use super::driver_bits::DriverBits;
use super::frame_lines::{put_error_if, put_frame_line};
use can_frame::Frame;
use can_node_rules::Counters;
use sja_replay::{BitEvent, Reception};
use std::alloc::AllocError;

/// The lines of the bit that a node has at hand, if there is one, with error frames or without.
pub(crate) fn put_node(
    text: &mut String,
    errors: bool,
    bit: u32,
    node: usize,
    hand: &DriverBits<'_>,
) -> Result<(), AllocError>
    ensures { OnOk result (string_bytes text.new ≡ string_bytes text.old ++ hand_lines errors bit node hand.now) }
{
    if let Some(before) = hand.passed {
        return put_restart(text, errors, bit, node, hand.left, before);
    }
    match hand.bits.bit() {
        Some(bit_event) => put_bit_event(text, errors, bit, node, hand.left, bit_event),
        None => Ok(()),
    }
}

/// The lines of what a bit brought; those of error frames only where they are asked for.
fn put_bit_event(
    text: &mut String,
    errors: bool,
    bit: u32,
    node: usize,
    left: Counters,
    bit_event: &BitEvent,
) -> Result<(), AllocError>
    ensures { OnOk result (string_bytes text.new ≡ string_bytes text.old
        ++ bit_lines errors bit node left bit_event.now) }
{
    put_restart(text, errors, bit, node, left, bit_event.before.counters)?;
    put_stored(
        text,
        bit,
        node,
        &bit_event.events.received,
        bit_event.reception,
    )?;
    if errors {
        put_error_if(text, bit, node, &bit_error(bit_event))?;
    }
    Ok(())
}

/// The line of a restart right before the bit, if there is one and error frames are asked for.
fn put_restart(
    text: &mut String,
    errors: bool,
    bit: u32,
    node: usize,
    left: Counters,
    before: Counters,
) -> Result<(), AllocError>
    ensures { OnOk result (string_bytes text.new ≡ string_bytes text.old
        ++ restart_line errors bit node left before) }
{
    if errors {
        return put_error_if(text, bit, node, &restart_error(left, before));
    }
    Ok(())
}

/// The line of a frame that was received, if there is one and it was stored.
fn put_stored(
    text: &mut String,
    bit: u32,
    node: usize,
    received: &Option<Frame>,
    reception: Option<Reception>,
) -> Result<(), AllocError>
    ensures { OnOk result (string_bytes text.new ≡ string_bytes text.old
        ++ stored_line bit node (stored_frame received.now reception)) }
{
    match (received, reception) {
        (Some(frame), Some(Reception::Stored)) => put_frame_line(text, bit, node, frame),
        _ => Ok(()),
    }
}
