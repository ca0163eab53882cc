//! `message TEXT`: a frame in can-utils' notation as its message, or a message's frame in that notation.

ghost use Rattle.std.specs.Prelude.{◌≡◌, [], ◌∷◌, ◌++◌, IfOk, IfErr};
ghost use Rattle.can_notation.specs.Faults.{HasHash};
ghost use Rattle.can_notation.specs.Text.{text};
ghost use Rattle.text_codec.specs.Notation.{IsTranslation};
ghost use Rattle.text_codec.specs.Given.{RefusesGiven};

use super::bytes_text::text_of_bytes;
use super::command_refusal::CommandRefusal;
use super::message::of_digits;
use can_frame::{Frame, Message};
use can_notation::{NotationFault, read_text, text_of};
use std::alloc::{AllocError, Global};

/// The bytes of the message whose frame this text says in can-utils' notation; or, where it has no `#`, that notation
/// of the message that its hexadecimal digits spell. Both end with a line feed.
pub fn translated(alloc: Global, given: &str) -> Result<Vec<u8>, CommandRefusal>
    ensures ok { IfOk result (λ text. IsTranslation given.now text.items) }
    ensures err { IfErr result (RefusesGiven given.now) }
{
    match read_text(given.as_bytes()) {
        Ok(frame) => Ok(text_of_bytes(alloc, Message::of(&frame).bytes())?),
        Err(NotationFault::NoHash) => in_notation(alloc, given),
        Err(NotationFault::Identifier) => Err(CommandRefusal::Notation(NotationFault::Identifier)),
        Err(NotationFault::Data) => Err(CommandRefusal::Notation(NotationFault::Data)),
    }
}

/// The frame of the message that these digits spell, in that notation.
fn in_notation(alloc: Global, digits: &str) -> Result<Vec<u8>, CommandRefusal>
    requires plain { ¬ HasHash digits.now }
    ensures ok { IfOk result (λ text. IsTranslation digits.now text.items) }
    ensures err { IfErr result (RefusesGiven digits.now) }
{
    let frame = of_digits(alloc, digits)?;
    Ok(notation_of(alloc, &frame)?)
}

/// The text of a frame in that notation, and a line feed.
fn notation_of(alloc: Global, frame: &Frame) -> Result<Vec<u8>, AllocError>
    ensures { IfOk result (λ line. line.items ≡ text frame.now ++ 10 ∷ []) }
{
    let mut line = Vec::new(alloc);
    line.extend_from_slice(text_of(frame).as_slice())?;
    line.push(b'\n')?;
    Ok(line)
}
