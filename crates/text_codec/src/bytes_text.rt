//! Bytes as text.

ghost use Rattle.std.specs.Prelude.{◌≡◌, ◌<◌, ◌++◌, IfOk, OnOk};
ghost use Rattle.std.specs.List.{flat_map};
ghost use Rattle.text_codec.specs.BytesText.{hex_digit, byte_digits, spaced_digits, bytes_text};

use std::alloc::{AllocError, Global};

/// The hexadecimal digits.
const DIGITS: [u8; 16] = *b"0123456789abcdef";

/// Two hexadecimal digits a byte, in lower case, one space between two bytes, and a line feed.
pub(crate) fn text_of_bytes(alloc: Global, bytes: &[u8]) -> Result<Vec<u8>, AllocError>
    ensures { IfOk result (λ text. text.items ≡ bytes_text bytes.now) }
{
    let mut text = Vec::new(alloc);
    if let [first, rest @ ..] = bytes {
        push_byte(&mut text, *first)?;
        push_spaced(&mut text, rest)?;
    }
    text.push(b'\n')?;
    Ok(text)
}

/// Each byte's digits behind a space.
fn push_spaced(text: &mut Vec<u8>, bytes: &[u8]) -> Result<(), AllocError>
    ensures { OnOk result (text.new.items ≡ text.old.items ++ flat_map spaced_digits bytes.now) }
{
    for byte in bytes {
        text.push(b' ')?;
        push_byte(text, *byte)?;
    }
    Ok(())
}

/// The two digits of a byte.
pub(crate) fn push_byte(text: &mut Vec<u8>, byte: u8) -> Result<(), AllocError>
    ensures { OnOk result (text.new.items ≡ text.old.items ++ byte_digits byte) }
{
    text.push(digit_of(byte / 16))?;
    text.push(digit_of(byte % 16))?;
    Ok(())
}

/// The digit of a number below 16.
fn digit_of(number: u8) -> u8
    requires { number < 16 }
    ensures { result ≡ hex_digit number }
{
    DIGITS[number as usize]
}
