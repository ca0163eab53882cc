//! The message that a word of a step spells.

ghost use Rattle.std.specs.Prelude.{◌≡◌, ◌⊎◌, ℕ, List, IfOk, IfErr, IfSome, IfNone};
ghost use Rattle.sja_plan_reading.specs.Words.{SpellsMessage};
ghost use Rattle.sja_plan_reading.specs.Messages.{SaysMessage, SpellsMessageIn};

use super::text_fault::TextFault;
use can_frame::Message;
use can_notation::read_text;
use hex::FromHexError;
use sja_plan::FIRST_BY_BYTES;
use std::alloc::Global;

/// The message that a word spells: its bytes in hexadecimal digits; in version 3 also its frame in can-utils' notation.
pub(crate) fn message(alloc: Global, version: usize, word: &str) -> Result<Message, TextFault>
    ensures ok { IfOk result (λ m. SpellsMessageIn version word.now m) }
    ensures err { IfErr result (λ e. (e ≡ TextFault.NoMemory)
        ⊎ ((e ≡ TextFault.Bad) × ((m : List ℕ) → ¬ SpellsMessageIn version word.now m))) }
{
    match of_digits(alloc, word) {
        Ok(message) => Ok(message),
        Err(TextFault::Bad) if version >= usize::from(FIRST_BY_BYTES) => of_notation(word),
        Err(fault) => Err(fault),
    }
}

/// The message whose bytes a word spells.
fn of_digits(alloc: Global, word: &str) -> Result<Message, TextFault>
    ensures ok { IfOk result (λ m. SpellsMessage word.now m) }
    ensures err { IfErr result (λ e. (e ≡ TextFault.NoMemory)
        ⊎ ((e ≡ TextFault.Bad) × ((m : List ℕ) → ¬ SpellsMessage word.now m))) }
{
    let bytes = match hex::decode(alloc, word) {
        Ok(bytes) => bytes,
        Err(FromHexError::OutOfMemory) => return Err(TextFault::NoMemory),
        Err(_) => return Err(TextFault::Bad),
    };
    match Message::from_bytes(bytes.as_slice()) {
        Ok(message) => Ok(message),
        Err(_) => Err(TextFault::Bad),
    }
}

/// The message of the frame that a word says in can-utils' notation.
fn of_notation(word: &str) -> Result<Message, TextFault>
    ensures ok { IfOk result (λ m. SaysMessage word.now m) }
    ensures err { IfErr result (λ e. (e ≡ TextFault.Bad) × ((m : List ℕ) → ¬ SaysMessage word.now m)) }
{
    match read_text(word.as_bytes()) {
        Ok(frame) => Ok(Message::of(&frame)),
        Err(_) => Err(TextFault::Bad),
    }
}
