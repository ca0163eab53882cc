//! Words of a report, each behind a space.

ghost use Rattle.std.specs.Prelude.{◌≡◌, ◌<◌, [], ◌∷◌, ◌++◌, false, string_bytes, OnOk};
ghost use Rattle.std.specs.Fmt.{digit_glyph};
ghost use Rattle.std.specs.Str.{IsAscii};
ghost use Rattle.text_report.specs.ReportWords.{byte_word, message_words, answer_words};
ghost use Rattle.text_report.specs.Spacing.{spaced, all_spaced};

use arrayvec::ArrayVec;
use can_frame::Message;
use sja_steps::StepAnswer;
use std::alloc::AllocError;
use std::fmt::Write;
use std::str;

/// How many characters the words of a message have at most: of 13 bytes each has two digits behind a space.
const CHARACTERS: usize = 39;

/// Writes what a step answers, each word behind a space: as SEEN.md has it.
///
/// Error: memory was refused.
pub fn put_answer(text: &mut String, answer: &StepAnswer) -> Result<(), AllocError>
    ensures { OnOk result (string_bytes text.new ≡ string_bytes text.old ++ all_spaced (answer_words answer.now)) }
{
    match answer {
        StepAnswer::Done | StepAnswer::Ignored(_) => text.push_str(" ok"),
        StepAnswer::NoMessage => text.push_str(" none"),
        StepAnswer::Shown(message) => put_bytes(text, message),
        StepAnswer::Released(bytes) => write!(text, " {bytes}"),
        StepAnswer::Value(value) => put_ascii(text, &word_of(*value)),
        StepAnswer::Refused(refusal) => write!(text, " refused {refusal}"),
    }
}

/// Writes the bytes of a message, 3 to 13, each as two hexadecimal digits behind a space.
///
/// Error: memory was refused.
pub fn put_bytes(text: &mut String, message: &Message) -> Result<(), AllocError>
    ensures { OnOk result (string_bytes text.new ≡ string_bytes text.old ++ all_spaced (message_words message.now)) }
{
    let mut words = ArrayVec::<u8, CHARACTERS>::new();
    prove!(message.len() <= 13);
    let bytes = message.bytes();
    for byte in bytes {
        let [space, high, low] = word_of(*byte);
        words.push(space);
        words.push(high);
        words.push(low);
    }
    put_ascii(text, words.as_slice())
}

/// Writes a byte: two hexadecimal digits, in lower case.
///
/// Error: memory was refused.
pub fn put_byte(text: &mut String, byte: u8) -> Result<(), AllocError>
    ensures { OnOk result (string_bytes text.new ≡ string_bytes text.old ++ byte_word byte) }
{
    put_digit(text, byte / 16)?;
    put_digit(text, byte % 16)?;
    Ok(())
}

/// A hexadecimal digit, in lower case.
fn put_digit(text: &mut String, number: u8) -> Result<(), AllocError>
    requires { number < 16 }
    ensures { OnOk result (string_bytes text.new ≡ string_bytes text.old ++ digit_glyph false number ∷ []) }
{
    text.push(char::from(digit_of(number)))
}

/// Writes characters, all of them ASCII: so they are UTF-8, which the call in it asks for.
///
/// Error: memory was refused.
pub fn put_ascii(text: &mut String, characters: &[u8]) -> Result<(), AllocError>
    requires { IsAscii characters.now }
    ensures { OnOk result (string_bytes text.new ≡ string_bytes text.old ++ characters.now) }
{
    text.push_str(unsafe { str::from_utf8_unchecked(characters) })
}

/// The two digits of a byte, behind a space.
fn word_of(byte: u8) -> [u8; 3]
    ensures word { result ≡ spaced (byte_word byte) }
    ensures ascii { IsAscii result }
{
    [b' ', digit_of(byte / 16), digit_of(byte % 16)]
}

/// The hexadecimal digit of a number, in lower case.
fn digit_of(number: u8) -> u8
    requires { number < 16 }
    ensures digit { result ≡ digit_glyph false number }
    ensures ascii { result < 128 }
{
    if number < 10 {
        b'0' + number
    } else {
        b'a' - 10 + number
    }
}
