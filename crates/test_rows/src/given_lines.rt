//! [`GivenLines`]: what the lines above a row give it.

use super::bits::Bits;
use super::documents::document;
use std::alloc::{AllocError, Global};

/// What the lines above a row give it: the last word for what is made of it, the last form, and the last words that say
/// which bits are drawn.
#[derive(Debug, Drop)]
pub struct GivenLines {
    kind: String,
    form: String,
    bits: String,
}

impl GivenLines {
    /// What a row without a line above it has: no word, an empty form, and all bits.
    pub(crate) fn nothing(alloc: Global) -> GivenLines {
        GivenLines {
            kind: String::new(alloc),
            form: String::new(alloc),
            bits: String::new(alloc),
        }
    }

    /// Takes a line that is a title or gives something to the rows below it, and says whether it is one.
    pub(crate) fn takes(&mut self, line: &str) -> Result<bool, AllocError> {
        let Some((mark, text)) = line.split_once(' ') else {
            return Ok(false);
        };
        match mark {
            "==" => {}
            "##" => put(&mut self.kind, text)?,
            "--" => put(&mut self.form, text)?,
            "++" => put(&mut self.bits, text)?,
            _ => return Ok(false),
        }
        Ok(true)
    }

    /// What is made of a row, or what its calls are of.
    pub fn kind(&self) -> &str {
        self.kind.as_str()
    }

    /// The document that a row is in this form.
    pub fn document(&self, alloc: Global, row: &str) -> Result<Vec<u8>, AllocError> {
        document(alloc, self.form.as_str(), row)
    }

    /// Which bits are drawn.
    pub fn bits(&self) -> Bits {
        Bits::of(self.bits.as_str())
    }
}

/// Writes a text in the place of another.
fn put(place: &mut String, text: &str) -> Result<(), AllocError> {
    place.clear();
    place.push_str(text)
}
