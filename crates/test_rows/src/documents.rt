//! The document of a plan that a row of text is.

use percent_encoding::percent_decode_str;
use std::alloc::{AllocError, Global};

/// The document of a row: its form with the row in the place of each `@`.
///
/// `; ` ends a line of the document, `<3 TEXT>` is the text three times, and `%0a` is the byte 0a (hexadecimal).
pub fn document(alloc: Global, form: &str, row: &str) -> Result<Vec<u8>, AllocError> {
    let filled = form.replace(alloc, "@", row)?;
    let lines = filled.as_str().replace(alloc, "; ", "\n")?;
    let mut bytes = Vec::new(alloc);
    for (number, part) in lines.as_str().split('<').enumerate() {
        if number == 0 {
            push_decoded(&mut bytes, part)?;
        } else {
            push_repeated(alloc, &mut bytes, part)?;
        }
    }
    Ok(bytes)
}

/// Writes out what follows a `<`. What is no repeat is written as it is.
fn push_repeated(alloc: Global, bytes: &mut Vec<u8>, part: &str) -> Result<(), AllocError> {
    let Some((repeat, behind)) = part.split_once('>') else {
        return push_decoded(bytes, part);
    };
    let Some((count, text)) = repeat.split_once(' ') else {
        return push_decoded(bytes, part);
    };
    let mut item = Vec::new(alloc);
    push_decoded(&mut item, text)?;
    for _ in 0..count.parse::<u32>().unwrap_or(0) {
        bytes.extend_from_slice(item.as_slice())?;
    }
    push_decoded(bytes, behind)
}

/// Writes a text, with the byte that each `%0a` is.
fn push_decoded(bytes: &mut Vec<u8>, text: &str) -> Result<(), AllocError> {
    percent_decode_str(text).append_to(bytes)
}
