//! A frame from the text that gives its message.

ghost use Rattle.std.specs.Prelude.{◌≡◌, IfOk, IfErr};
ghost use Rattle.can_notation.specs.Faults.{HasHash};
ghost use Rattle.text_codec.specs.Given.{Gives, RefusesGiven, without_spaces};
ghost use Rattle.text_codec.specs.Message.{ReadsAs, RefusesMessage};

use super::command_refusal::CommandRefusal;
use can_frame::{Frame, Message};
use can_notation::{NotationFault, read_text};
use hex::FromHexError;
use std::alloc::{AllocError, Global};

/// The frame that this text gives: in can-utils' notation where it has a `#`, and else by its message's digits.
pub(crate) fn frame_of(alloc: Global, given: &str) -> Result<Frame, CommandRefusal>
    ensures ok { IfOk result (Gives given.now) }
    ensures err { IfErr result (RefusesGiven given.now) }
{
    match read_text(given.as_bytes()) {
        Ok(frame) => Ok(frame),
        Err(NotationFault::NoHash) => of_digits(alloc, given),
        Err(NotationFault::Identifier) => Err(CommandRefusal::Notation(NotationFault::Identifier)),
        Err(NotationFault::Data) => Err(CommandRefusal::Notation(NotationFault::Data)),
    }
}

/// The frame of the message that these digits spell, with spaces between them or not.
pub(crate) fn of_digits(alloc: Global, digits: &str) -> Result<Frame, CommandRefusal>
    requires plain { ¬ HasHash digits.now }
    ensures ok { IfOk result (Gives digits.now) }
    ensures err { IfErr result (RefusesGiven digits.now) }
{
    let digits = without_spaces(alloc, digits)?;
    let message = message_of(alloc, digits.as_slice())?;
    Ok(message.frame())
}

/// The bytes of a text without its spaces.
fn without_spaces(alloc: Global, given: &str) -> Result<Vec<u8>, AllocError>
    ensures { IfOk result (λ bytes. bytes.items ≡ without_spaces given.now) }
{
    let given = given.as_bytes();
    let mut bytes = Vec::new(alloc);
    for byte in given {
        if *byte != b' ' {
            bytes.push(*byte)?;
        }
    }
    Ok(bytes)
}

/// The message that these digits spell.
fn message_of(alloc: Global, digits: &[u8]) -> Result<Message, CommandRefusal>
    ensures ok { IfOk result (λ m. ReadsAs digits.now m) }
    ensures err { IfErr result (RefusesMessage digits.now) }
{
    let bytes = bytes_of(alloc, digits)?;
    Ok(Message::from_bytes(bytes.as_slice())?)
}

/// The bytes that these digits spell.
fn bytes_of(alloc: Global, digits: &[u8]) -> Result<Vec<u8>, CommandRefusal>
    ensures ok { IfOk result (λ bytes. ReadsAs digits.now bytes.items) }
    ensures err { IfErr result (RefusesMessage digits.now) }
{
    match hex::decode(alloc, digits) {
        Ok(bytes) => Ok(bytes),
        Err(FromHexError::OutOfMemory) => Err(CommandRefusal::OutOfMemory),
        Err(_) => Err(CommandRefusal::NotHexadecimal),
    }
}
