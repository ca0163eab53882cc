//! `encode MESSAGE`: the levels that a transmitter of the message's frame sends.

ghost use Rattle.std.specs.Prelude.{IfOk, IfErr};
ghost use Rattle.text_codec.specs.Encode.{IsEncoding};
ghost use Rattle.text_codec.specs.Given.{RefusesGiven};

use super::command_refusal::CommandRefusal;
use super::line_text::text_of;
use super::message::frame_of;
use can_bits::line_of;
use std::alloc::Global;

/// The line of the frame that this text gives, as text.
pub fn encoded(alloc: Global, given: &str) -> Result<Vec<u8>, CommandRefusal>
    ensures ok { IfOk result (λ text. IsEncoding given.now text.items) }
    ensures err { IfErr result (RefusesGiven given.now) }
{
    let frame = frame_of(alloc, given)?;
    let levels = line_of(alloc, &frame)?;
    Ok(text_of(alloc, levels.as_slice())?)
}
