//! Texts of frames and places.

ghost use Rattle.std.specs.Prelude.{◌≡◌, ◌++◌, string_bytes, OnOk};
ghost use Rattle.can_notation.specs.Text.{text as frame_text};
ghost use Rattle.text_trace.specs.Places.{place_name, phase_text, where_text};
ghost use Rattle.text_trace.specs.Places.{identifier_bit, segment_text, owner_text};

use super::names::{flag_name, segment_name};
use can_frame::Frame;
use can_levels::Segment;
use can_node_rules::Phase;
use can_notation::text_of;
use sja_replay::View;
use std::alloc::AllocError;
use std::fmt::Write;
use text_report::put_ascii;

/// A frame, in the notation of can-utils.
pub fn put_frame(text: &mut String, frame: &Frame) -> Result<(), AllocError>
    ensures { OnOk result (string_bytes text.new ≡ string_bytes text.old ++ frame_text frame.now) }
{
    let characters = text_of(frame);
    put_ascii(text, characters.as_slice())
}

/// The name of the bit that has this place code.
pub fn put_place(text: &mut String, code: u8) -> Result<(), AllocError>
    ensures { OnOk result (string_bytes text.new ≡ string_bytes text.old ++ place_name code) }
{
    if code == 11 {
        return text.push_str("SRTR");
    }
    if code == 12 {
        return text.push_str("IDE");
    }
    if code == 31 {
        return text.push_str("RTR");
    }
    write!(text, "ID.{}", identifier_bit(code))
}

/// The number of the identifier bit that has this place code.
fn identifier_bit(code: u8) -> u8
    ensures { result ≡ identifier_bit code }
{
    if code <= 10 {
        28 - code
    } else {
        30u8.saturating_sub(code)
    }
}

/// Where a node was with a bit.
pub(crate) fn put_where(text: &mut String, view: &View) -> Result<(), AllocError>
    ensures { OnOk result (string_bytes text.new ≡ string_bytes text.old ++ where_text view.now) }
{
    match view.phase {
        Phase::Reset => text.push_str("in reset"),
        Phase::Waiting => text.push_str("waiting for the bus"),
        Phase::Idle => text.push_str("idle"),
        Phase::Frame => put_in_frame(text, view.segment, view.transmits),
        Phase::Flag => text.push_str(flag_name(view.flag)),
        Phase::Delimiter => text.push_str("delimiter"),
        Phase::Intermission => text.push_str("intermission"),
        Phase::Suspension => text.push_str("suspend transmission"),
    }
}

/// The segment, and whose frame it is.
#[tactic(auto, using(text_report::proofs::WrittenLines::Written::two_texts))]
fn put_in_frame(
    text: &mut String,
    segment: Option<Segment>,
    transmits: bool,
) -> Result<(), AllocError>
    ensures { OnOk result (string_bytes text.new ≡ string_bytes text.old
        ++ (segment_text segment ++ owner_text transmits)) }
{
    put_segment(text, segment)?;
    text.push_str(owner_name(transmits))?;
    Ok(())
}

/// The segment, if there is one.
fn put_segment(text: &mut String, segment: Option<Segment>) -> Result<(), AllocError>
    ensures { OnOk result (string_bytes text.new ≡ string_bytes text.old ++ segment_text segment) }
{
    match segment {
        Some(segment) => text.push_str(segment_name(segment)),
        None => Ok(()),
    }
}

/// Whose frame it is.
fn owner_name(transmits: bool) -> &'static str
    ensures { result.now ≡ owner_text transmits }
{
    if transmits {
        ", own frame"
    } else {
        ", frame of another"
    }
}
