//! The words for the bytes of the data field.

ghost use Rattle.std.specs.Prelude.{◌≡◌, ◌++◌, ℕ, OnOk, IfOk, string_bytes};
ghost use Rattle.lemmas.specs.Gathering.{gathered};
ghost use Rattle.text_frames.specs.FieldTexts.{byte_bits, bytes_text, field_text, named_bytes};

use super::field_texts::put_bits;
use super::frame_bit::FrameBit;
use std::alloc::{AllocError, Global};

/// The bytes of a frame, counted from 0, with their names in the list.
const NAMED_BYTES: [(usize, &str); 8] = [
    (0, "data 1"),
    (1, "2"),
    (2, "3"),
    (3, "4"),
    (4, "5"),
    (5, "6"),
    (6, "7"),
    (7, "8"),
];

/// Each byte of data that has bits, of the bits of the data field.
pub(crate) fn put_bytes(
    alloc: Global,
    text: &mut String,
    own: &[FrameBit],
) -> Result<(), AllocError>
    ensures { OnOk result (string_bytes text.new ≡ string_bytes text.old ++ bytes_text own.now) }
{
    put_each(alloc, text, own, &NAMED_BYTES)
}

/// Those of these bytes that have bits.
fn put_each(
    alloc: Global,
    text: &mut String,
    own: &[FrameBit],
    bytes: &[(usize, &str)],
) -> Result<(), AllocError>
    ensures { OnOk result (string_bytes text.new ≡ string_bytes text.old
        ++ gathered (λ (b : ℕ × _). field_text b.1.now (byte_bits b.0 0 own.now)) bytes.now) }
{
    for byte in bytes {
        let (number, name) = *byte;
        let bits = byte_bits(alloc, own, number)?;
        put_bits(alloc, text, name, bits.as_slice())?;
    }
    Ok(())
}

/// Of the bits of the data field those of the byte of this number, counted from 0.
fn byte_bits(alloc: Global, own: &[FrameBit], number: usize) -> Result<Vec<FrameBit>, AllocError>
    ensures { IfOk result (λ bits. bits.items ≡ byte_bits number 0 own.now) }
{
    let mut bits = Vec::new(alloc);
    let mut before = 0usize;
    for bit in own {
        if before / 8 == number {
            bits.push(*bit)?;
        }
        if !bit.stuff {
            before += 1;
        }
    }
    Ok(bits)
}
