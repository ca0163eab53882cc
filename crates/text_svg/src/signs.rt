//! Signs: strikes, and what became of messages.

ghost use Rattle.std.specs.Prelude.{◌≡◌, ◌++◌, OnOk, string_bytes};
ghost use Rattle.text_picture.specs.Letters.{is_struck};
ghost use Rattle.text_svg.specs.Elements.{struck_sign, stored_sign, lost_sign};
ghost use Rattle.text_svg.specs.Lanes.{strike_if, reception_if, signs_if};
ghost use Rattle.can_notation.specs.Text.{text as frame_text};

use can_frame::Frame;
use can_levels::Level;
use sja_replay::{BitEvent, Reception};
use std::alloc::AllocError;
use std::fmt::Write;
use text_trace::{is_same, put_frame};

/// The signs of a bit in which the bus had this level, if there is one.
pub(crate) fn put_signs_if(
    text: &mut String,
    x: u64,
    bus: Level,
    bit: &Option<BitEvent>,
) -> Result<(), AllocError>
    ensures { OnOk result (string_bytes text.new ≡ string_bytes text.old ++ signs_if x bus bit.now) }
{
    match bit {
        Some(bit) => put_signs(text, x, bus, bit),
        None => Ok(()),
    }
}

/// The signs of this bit.
#[tactic(auto, using(text_report::proofs::WrittenLines::Written::two_texts))]
fn put_signs(text: &mut String, x: u64, bus: Level, bit: &BitEvent) -> Result<(), AllocError>
    ensures { OnOk result (string_bytes text.new ≡ string_bytes text.old
        ++ (strike_if x bit.now.bit (is_struck bus bit.now)
        ++ reception_if x bit.now.bit bit.now.events.received bit.now.reception)) }
{
    put_strike_if(text, x, bit.bit, !is_same(bit.seen, bus))?;
    put_received_if(text, x, bit.bit, &bit.events.received, bit.reception)?;
    Ok(())
}

/// The sign of a strike, where the node was struck.
fn put_strike_if(text: &mut String, x: u64, bit: u32, struck: bool) -> Result<(), AllocError>
    ensures { OnOk result (string_bytes text.new ≡ string_bytes text.old ++ strike_if x bit struck) }
{
    if struck {
        put_strike(text, x, bit)
    } else {
        Ok(())
    }
}

/// The sign of a strike.
fn put_strike(text: &mut String, x: u64, bit: u32) -> Result<(), AllocError>
    ensures { OnOk result (string_bytes text.new ≡ string_bytes text.old ++ struck_sign x bit) }
{
    writeln!(
        text,
        "<path class='struck' d='M{x} 29l8 8m0-8l-8 8'><title>bit {bit}: struck</title></path>"
    )
}

/// The sign of the message of a frame that was received with a bit, by what became of it.
fn put_received_if(
    text: &mut String,
    x: u64,
    bit: u32,
    received: &Option<Frame>,
    reception: Option<Reception>,
) -> Result<(), AllocError>
    ensures { OnOk result (string_bytes text.new ≡ string_bytes text.old ++ reception_if x bit received.now reception) }
{
    match received {
        Some(frame) => put_received(text, x, bit, frame, reception),
        None => Ok(()),
    }
}

ghost use Rattle.std.specs.Prelude.{Some};

/// The same of this frame.
fn put_received(
    text: &mut String,
    x: u64,
    bit: u32,
    frame: &Frame,
    reception: Option<Reception>,
) -> Result<(), AllocError>
    ensures { OnOk result (string_bytes text.new ≡ string_bytes text.old ++ reception_if x bit
        (Some frame.now) reception) }
{
    match reception {
        Some(Reception::Stored) => put_stored(text, x, bit, frame),
        Some(Reception::Overrun { .. }) => put_lost(text, x, bit, frame),
        Some(Reception::Stopped) | None => Ok(()),
    }
}

/// The sign of a message that was stored.
fn put_stored(text: &mut String, x: u64, bit: u32, frame: &Frame) -> Result<(), AllocError>
    ensures { OnOk result (string_bytes text.new ≡ string_bytes text.old
        ++ stored_sign x bit (frame_text frame.now)) }
{
    write!(
        text,
        "<path class='stored' d='M{x} 42h8l-4 8z'><title>bit {bit}: stored "
    )?;
    put_frame(text, frame)?;
    text.push_str("</title></path>\n")?;
    Ok(())
}

/// The sign of a message that was lost.
fn put_lost(text: &mut String, x: u64, bit: u32, frame: &Frame) -> Result<(), AllocError>
    ensures { OnOk result (string_bytes text.new ≡ string_bytes text.old ++ lost_sign x bit (frame_text frame.now)) }
{
    write!(
        text,
        "<path class='lost' d='M{x} 42h8l-4 8z'><title>bit {bit}: overrun, lost "
    )?;
    put_frame(text, frame)?;
    text.push_str("</title></path>\n")?;
    Ok(())
}
