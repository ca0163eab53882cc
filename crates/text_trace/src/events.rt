//! The events of a bit.

ghost use Rattle.std.specs.Prelude.{◌≡◌, OnOk};
ghost use Rattle.text_trace.specs.Events.{abort_said, start_said, strike_said, acknowledgement_said, loss_said};
ghost use Rattle.text_trace.specs.Events.{fault_said, flag_said, reception_said, end_said};
ghost use Rattle.text_trace.specs.BitEvents.{suspension_said, bit_said, events_said};
ghost use Rattle.text_trace.specs.Causes.{all_said};
ghost use Rattle.text_trace.specs.Inside.Saying.{Tells};

use super::causes::{put_bit_cause, put_start_cause};
use super::counters::{put_counters, put_restart, put_states};
use super::event_texts::{
    abort_name, put_end_text, put_fault_text, put_flag_text, put_loss_text, put_reception_text,
    put_start_text, put_strike_text,
};
use super::has_event::{acknowledges, begins_suspension, flag_begins, is_held, is_same, is_start};
use super::remarks::Remarks;
use can_levels::Level;
use can_node_rules::Counters;
use sja_replay::BitEvent;
use std::alloc::AllocError;

/// All events of a bit, in which the bus had this level, and before them what a start made of these counters; behind
/// them, in version 3, why a counter changed.
pub(crate) fn put_all(
    remarks: &mut Remarks,
    by_bytes: bool,
    bus: Level,
    left: Counters,
    bit: &BitEvent,
) -> Result<(), AllocError>
    ensures { OnOk result (Tells remarks.old remarks.new (all_said by_bytes bus left bit.now)) }
{
    put_all_events(remarks, bus, left, bit)?;
    put_start_cause(remarks, by_bytes, left, bit)?;
    put_bit_cause(remarks, by_bytes, bit)?;
    Ok(())
}

/// All events of a bit, and before them what a start made of these counters.
fn put_all_events(
    remarks: &mut Remarks,
    bus: Level,
    left: Counters,
    bit: &BitEvent,
) -> Result<(), AllocError>
    ensures { OnOk result (Tells remarks.old remarks.new (events_said bus left bit.now)) }
{
    put_restart(remarks, left, bit)?;
    put_events(remarks, bus, bit)?;
    Ok(())
}

/// All events of a bit, in which the bus had this level.
fn put_events(remarks: &mut Remarks, bus: Level, bit: &BitEvent) -> Result<(), AllocError>
    ensures { OnOk result (Tells remarks.old remarks.new (bit_said bus bit.now)) }
{
    put_abort(remarks, bit)?;
    put_start(remarks, bit)?;
    put_strike(remarks, bus, bit)?;
    put_acknowledgement(remarks, bit)?;
    put_loss(remarks, bit)?;
    put_fault(remarks, bit)?;
    put_flag(remarks, bit)?;
    put_reception(remarks, bit)?;
    put_end(remarks, bit)?;
    put_suspension(remarks, bit)?;
    put_states(remarks, bit)?;
    put_counters(remarks, bit)?;
    Ok(())
}

/// An abort that changed the node right before the bit.
fn put_abort(remarks: &mut Remarks, bit: &BitEvent) -> Result<(), AllocError>
    ensures { OnOk result (Tells remarks.old remarks.new (abort_said bit.now)) }
{
    remarks.say_if(bit.aborted, abort_name(is_held(&bit.before.held)))
}

/// SOF of the node's own frame, or of another's.
fn put_start(remarks: &mut Remarks, bit: &BitEvent) -> Result<(), AllocError>
    ensures { OnOk result (Tells remarks.old remarks.new (start_said bit.now)) }
{
    if !is_start(bit) {
        return Ok(());
    }
    remarks.begin()?;
    put_start_text(&mut remarks.text, bit.after.transmits, &bit.before.held)?;
    Ok(())
}

/// The node saw the other level than the bus had.
fn put_strike(remarks: &mut Remarks, bus: Level, bit: &BitEvent) -> Result<(), AllocError>
    ensures { OnOk result (Tells remarks.old remarks.new (strike_said bus bit.now)) }
{
    if is_same(bit.seen, bus) {
        return Ok(());
    }
    remarks.begin()?;
    put_strike_text(&mut remarks.text, bit)?;
    Ok(())
}

/// A receiver of a frame acknowledges.
fn put_acknowledgement(remarks: &mut Remarks, bit: &BitEvent) -> Result<(), AllocError>
    ensures { OnOk result (Tells remarks.old remarks.new (acknowledgement_said bit.now)) }
{
    remarks.say_if(acknowledges(bit), "acknowledges")
}

/// Arbitration was lost: the name of the bit, and what ALC reads where it captures it.
fn put_loss(remarks: &mut Remarks, bit: &BitEvent) -> Result<(), AllocError>
    ensures { OnOk result (Tells remarks.old remarks.new (loss_said bit.now)) }
{
    let Some(code) = bit.events.lost else {
        return Ok(());
    };
    remarks.begin()?;
    put_loss_text(&mut remarks.text, code)?;
    Ok(())
}

/// A fault: cause, segment, role, and what ECC reads where it captures it.
fn put_fault(remarks: &mut Remarks, bit: &BitEvent) -> Result<(), AllocError>
    ensures { OnOk result (Tells remarks.old remarks.new (fault_said bit.now)) }
{
    let Some((cause, segment)) = bit.events.fault else {
        return Ok(());
    };
    remarks.begin()?;
    put_fault_text(&mut remarks.text, cause, segment, bit.events.receiving)?;
    Ok(())
}

/// Which flag begins with the next bit.
fn put_flag(remarks: &mut Remarks, bit: &BitEvent) -> Result<(), AllocError>
    ensures { OnOk result (Tells remarks.old remarks.new (flag_said bit.now)) }
{
    if !flag_begins(bit) {
        return Ok(());
    }
    remarks.begin()?;
    put_flag_text(&mut remarks.text, bit.after.flag)?;
    Ok(())
}

/// A frame was received, and what became of it.
fn put_reception(remarks: &mut Remarks, bit: &BitEvent) -> Result<(), AllocError>
    ensures { OnOk result (Tells remarks.old remarks.new (reception_said bit.now)) }
{
    let Some(frame) = &bit.events.received else {
        return Ok(());
    };
    remarks.begin()?;
    put_reception_text(&mut remarks.text, frame, bit.reception)?;
    Ok(())
}

/// The request ended: its frame was sent, or it failed and isn't tried again.
fn put_end(remarks: &mut Remarks, bit: &BitEvent) -> Result<(), AllocError>
    ensures { OnOk result (Tells remarks.old remarks.new (end_said bit.now)) }
{
    let Some(outcome) = &bit.events.ended else {
        return Ok(());
    };
    let Some(request) = &bit.before.held else {
        return Ok(());
    };
    remarks.begin()?;
    put_end_text(&mut remarks.text, outcome, &request.frame)?;
    Ok(())
}

/// Suspend transmission begins.
fn put_suspension(remarks: &mut Remarks, bit: &BitEvent) -> Result<(), AllocError>
    ensures { OnOk result (Tells remarks.old remarks.new (suspension_said bit.now)) }
{
    let begins = begins_suspension(bit.before.phase, bit.after.phase);
    remarks.say_if(begins, "suspend transmission")
}
