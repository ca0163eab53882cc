//! The texts of events.

ghost use Rattle.std.specs.Prelude.{◌≡◌, ◌++◌, codes, string_bytes, OnOk};
ghost use Rattle.text_trace.specs.Events.{abort_text, own_start_text, start_text, strike_text, loss_text, fault_words};
ghost use Rattle.text_trace.specs.Events.{fault_text, received_text, reception_text, outcome_text, end_text};
ghost use Rattle.text_trace.specs.Names.{flag_name as flag_word};

use super::names::{cause_name, flag_name, level_name, role_name, segment_name};
use super::words::{put_frame, put_place, put_where};
use can_frame::Frame;
use can_levels::Segment;
use can_node_rules::{Cause, FlagKind, Outcome, Request, error_code};
use sja_replay::{BitEvent, Reception};
use std::alloc::AllocError;
use std::fmt::Write;
use text_report::put_byte;

/// Of an abort, by whether the request is held on.
pub(crate) fn abort_name(held: bool) -> &'static str
    ensures { result.now ≡ abort_text held }
{
    if held {
        "aborted in progress"
    } else {
        "aborted"
    }
}

/// Of SOF, by the role that follows and the request that is held.
pub(crate) fn put_start_text(
    text: &mut String,
    transmits: bool,
    held: &Option<Request>,
) -> Result<(), AllocError>
    ensures { OnOk result (string_bytes text.new ≡ string_bytes text.old ++ start_text transmits held.now) }
{
    if !transmits {
        return text.push_str("SOF of another's frame");
    }
    match held {
        Some(request) => put_own_start(text, &request.frame),
        None => text.push_str("SOF of another's frame"),
    }
}

/// Of SOF of an own frame.
#[tactic(auto, using(text_report::proofs::WrittenLines::Written::two_texts))]
fn put_own_start(text: &mut String, frame: &Frame) -> Result<(), AllocError>
    ensures { OnOk result (string_bytes text.new ≡ string_bytes text.old ++ own_start_text frame.now) }
{
    text.push_str("SOF of its own frame ")?;
    put_frame(text, frame)?;
    Ok(())
}

/// Of a level that isn't that of the bus.
#[tactic(auto, using(text_report::proofs::WrittenLines::Written::three_texts))]
pub(crate) fn put_strike_text(text: &mut String, bit: &BitEvent) -> Result<(), AllocError>
    ensures { OnOk result (string_bytes text.new ≡ string_bytes text.old ++ strike_text bit.now) }
{
    write!(text, "struck: sees {} (", level_name(bit.seen))?;
    put_where(text, &bit.before)?;
    text.push_str(")")?;
    Ok(())
}

/// Of lost arbitration.
pub(crate) fn put_loss_text(text: &mut String, code: u8) -> Result<(), AllocError>
    ensures { OnOk result (string_bytes text.new ≡ string_bytes text.old ++ loss_text code) }
{
    text.push_str("arbitration lost in ")?;
    put_place(text, code)?;
    text.push_str(", ALC ")?;
    put_byte(text, code)?;
    Ok(())
}

/// Of a fault.
#[tactic(auto, using(text_report::proofs::WrittenLines::Written::two_texts))]
pub(crate) fn put_fault_text(
    text: &mut String,
    cause: Cause,
    segment: Segment,
    receiving: bool,
) -> Result<(), AllocError>
    ensures { OnOk result (string_bytes text.new ≡ string_bytes text.old ++ fault_text cause segment receiving) }
{
    put_fault_words(text, cause, segment, receiving)?;
    put_byte(text, error_code(cause, segment, receiving))?;
    Ok(())
}

/// Cause, segment and role of a fault.
fn put_fault_words(
    text: &mut String,
    cause: Cause,
    segment: Segment,
    receiving: bool,
) -> Result<(), AllocError>
    ensures { OnOk result (string_bytes text.new ≡ string_bytes text.old ++ fault_words cause segment receiving) }
{
    let cause = cause_name(cause);
    let segment = segment_name(segment);
    let role = role_name(receiving);
    write!(text, "{cause} in {segment} as {role}, ECC ")
}

/// Of a flag that begins.
pub(crate) fn put_flag_text(text: &mut String, flag: FlagKind) -> Result<(), AllocError>
    ensures { OnOk result (string_bytes text.new ≡ string_bytes text.old ++ (flag_word flag ++ codes " follows")) }
{
    write!(text, "{} follows", flag_name(flag))
}

/// Of a frame that was received.
#[tactic(auto, using(text_report::proofs::WrittenLines::Written::three_texts))]
pub(crate) fn put_reception_text(
    text: &mut String,
    frame: &Frame,
    reception: Option<Reception>,
) -> Result<(), AllocError>
    ensures { OnOk result (string_bytes text.new ≡ string_bytes text.old ++ reception_text frame.now reception) }
{
    text.push_str("received ")?;
    put_frame(text, frame)?;
    put_received(text, reception)?;
    Ok(())
}

/// What became of it.
fn put_received(text: &mut String, reception: Option<Reception>) -> Result<(), AllocError>
    ensures { OnOk result (string_bytes text.new ≡ string_bytes text.old ++ received_text reception) }
{
    match reception {
        Some(Reception::Stored) => text.push_str(", stored"),
        Some(Reception::Overrun { length, free }) => {
            write!(text, ", OVERRUN: {length} bytes, {free} free")
        }
        Some(Reception::Stopped) | None => text.push_str(", stopped by the filter"),
    }
}

/// Of a request that ended.
#[tactic(auto, using(text_report::proofs::WrittenLines::Written::two_texts))]
pub(crate) fn put_end_text(
    text: &mut String,
    outcome: &Outcome,
    frame: &Frame,
) -> Result<(), AllocError>
    ensures { OnOk result (string_bytes text.new ≡ string_bytes text.old ++ end_text outcome.now frame.now) }
{
    text.push_str(outcome_name(outcome))?;
    put_frame(text, frame)?;
    Ok(())
}

/// How it ended.
fn outcome_name(outcome: &Outcome) -> &'static str
    ensures { result.now ≡ outcome_text outcome.now }
{
    match outcome {
        Outcome::Sent => "sent ",
        Outcome::Failed => "failed and not tried again ",
    }
}
