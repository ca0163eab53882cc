//! `decode LINE`: the message of the frame whose acknowledged line it is.

ghost use Rattle.std.specs.Prelude.{IfOk, IfErr};
ghost use Rattle.text_codec.specs.Decode.{IsDecoding, RefusesLine};

use super::bytes_text::text_of_bytes;
use super::command_refusal::CommandRefusal;
use super::line_text::levels_of;
use can_bits::read_line;
use can_frame::Message;
use std::alloc::Global;

/// The message of the frame whose acknowledged line these digits are, as text.
pub fn decoded(alloc: Global, digits: &str) -> Result<Vec<u8>, CommandRefusal>
    ensures ok { IfOk result (λ text. IsDecoding digits.now text.items) }
    ensures err { IfErr result (RefusesLine digits.now) }
{
    let levels = levels_of(alloc, digits)?;
    let frame = read_line(levels.as_slice())?;
    let message = Message::of(&frame);
    Ok(text_of_bytes(alloc, message.bytes())?)
}
