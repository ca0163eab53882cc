//! [`Piece`]: what fills a gap of a template.

use sja_steps::Refusal;

/// What fills a gap of a template.
#[derive(Clone, Copy)]
pub(crate) enum Piece<'a> {
    /// A text.
    Text(&'a str),
    /// A character.
    Character(char),
    /// These words, each between two texts.
    Words(&'static str, &'a [&'a str], &'static str),
    /// A number that counts something.
    Number(u64),
    /// A whole number of the document.
    Whole(i64),
    /// A byte, in two hexadecimal digits.
    Byte(u8),
    /// Bytes, each in two hexadecimal digits.
    Bytes(&'a [u8]),
    /// The line that something stands in, as `line 3: `; nothing where it isn't known.
    Line(Option<usize>),
    /// A text of the document in quotes, or `it` where it isn't known.
    Shown(Option<&'a str>),
    /// Why a step was refused.
    Refused(Refusal),
}
