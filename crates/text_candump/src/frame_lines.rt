//! Lines of the log format of can-utils.

ghost use Rattle.std.specs.Prelude.{◌≡◌, ◌++◌, ◌∷◌, true, string_bytes, OnOk};
ghost use Rattle.can_notation.specs.Text.{text as frame_text, identifier_text, data_text, hash};
ghost use Rattle.text_candump.specs.ErrorFrames.{error_text, error_identifier};
ghost use Rattle.text_candump.specs.Lines.{head_text, frame_line};
ghost use Rattle.text_candump.specs.CandumpText.{error_line};

use super::error_frame::ErrorFrame;
use can_frame::Frame;
use std::alloc::AllocError;
use std::fmt::Write;
use text_trace::put_frame;

/// How many bits take a second.
const SECOND: u32 = 1_000_000;

/// The line of a frame.
pub(crate) fn put_frame_line(
    text: &mut String,
    bit: u32,
    node: usize,
    frame: &Frame,
) -> Result<(), AllocError>
    ensures { OnOk result (string_bytes text.new ≡ string_bytes text.old
        ++ frame_line bit node (frame_text frame.now)) }
{
    put_head(text, bit, node)?;
    put_frame(text, frame)?;
    text.push('\n')?;
    Ok(())
}

/// The line of an error frame, if there is one.
pub(crate) fn put_error_if(
    text: &mut String,
    bit: u32,
    node: usize,
    error: &Option<ErrorFrame>,
) -> Result<(), AllocError>
    ensures { OnOk result (string_bytes text.new ≡ string_bytes text.old ++ error_line bit node error.now) }
{
    match error {
        Some(error) => put_error_line(text, bit, node, error),
        None => Ok(()),
    }
}

/// The line of an error frame.
fn put_error_line(
    text: &mut String,
    bit: u32,
    node: usize,
    error: &ErrorFrame,
) -> Result<(), AllocError>
    ensures { OnOk result (string_bytes text.new ≡ string_bytes text.old
        ++ frame_line bit node (error_text error.now)) }
{
    put_head(text, bit, node)?;
    put_error(text, error)?;
    text.push('\n')?;
    Ok(())
}

/// Time and device.
#[tactic(auto, using(crate::proofs::Lines::FrameTexts::decimal_zeros))]
fn put_head(text: &mut String, bit: u32, node: usize) -> Result<(), AllocError>
    ensures { OnOk result (string_bytes text.new ≡ string_bytes text.old ++ head_text bit node) }
{
    let seconds = bit / SECOND;
    let microseconds = bit % SECOND;
    write!(text, "({seconds:010}.{microseconds:06}) can{node} ")?;
    Ok(())
}

/// An error frame.
fn put_error(text: &mut String, error: &ErrorFrame) -> Result<(), AllocError>
    ensures { OnOk result (string_bytes text.new ≡ string_bytes text.old ++ error_text error.now) }
{
    put_identifier(text, error)?;
    text.push('#')?;
    put_bytes(text, &error.bytes())?;
    Ok(())
}

/// The identifier of an error frame.
#[tactic(auto, using(crate::proofs::Lines::FrameTexts::identifier_digits))]
fn put_identifier(text: &mut String, error: &ErrorFrame) -> Result<(), AllocError>
    ensures { OnOk result (string_bytes text.new ≡ string_bytes text.old
        ++ identifier_text true (error_identifier error.now)) }
{
    let identifier = error.identifier();
    write!(text, "{identifier:08X}")?;
    Ok(())
}

/// Data bytes, two digits each.
fn put_bytes(text: &mut String, bytes: &[u8]) -> Result<(), AllocError>
    ensures { OnOk result (string_bytes text.new ≡ string_bytes text.old ++ data_text bytes.now) }
{
    for byte in bytes {
        write!(text, "{byte:02X}")?;
    }
    Ok(())
}
