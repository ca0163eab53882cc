//! Words of accesses of version 3: a register, and a value for it.

use super::super::near::nearest_register;
use super::super::page::{Page, Piece};
use super::number::{number_in, wrong_digit};
use sja_plan::FIRST_BY_BYTES;
use sja_plan_reading::{REGISTERS, address_of, bit_names, value_of};

/// The address of CMR, which a `command` writes.
const COMMAND: u8 = 1;

/// Says why the word at this place says no register; false where it says one.
pub(crate) fn register_words<'a>(page: &mut Page, words: &'a [&'a str], place: usize) -> bool {
    let Some(word) = words.get(place) else {
        return false;
    };
    if address_of(usize::from(FIRST_BY_BYTES), word).is_ok() {
        return false;
    }
    let near = if word.starts_with(|c: char| c.is_ascii_alphabetic()) {
        nearest_register(page, word)
    } else {
        ""
    };
    let template = if number_in(word).is_some() {
        "ADDRESS is from 0 to 255, and here it is {0}"
    } else if near.is_empty() {
        "an ADDRESS is 0 to 255, or 0x00 to 0xff, or a register's name, as ECC, and not <{0}>"
    } else {
        "no register is called <{0}>, did you mean \"{1}\"?"
    };
    page.say(template, &[Piece::Text(word), Piece::Text(near)])
}

/// Says why the word at this place says no value for the register before it; false where it says one.
pub(crate) fn bits_words<'a>(page: &mut Page, words: &'a [&'a str], place: usize) -> bool {
    let Some(word) = words.get(place) else {
        return false;
    };
    let before = words.get(place.wrapping_sub(1)).copied().unwrap_or("");
    let register = address_of(usize::from(FIRST_BY_BYTES), before).unwrap_or(COMMAND);
    if value_of(usize::from(FIRST_BY_BYTES), register, word).is_ok() {
        return false;
    }
    let template = match bit_names(register) {
        Some(names) if has_names(word) => return names_words(page, register, names, word),
        Some(_) =>
            "a VALUE is two hexadecimal digits, 0x00 to 0xff, or names of bits, and not <{0}>",
        None => "a VALUE is two hexadecimal digits, or 0x00 to 0xff, and not <{0}>",
    };
    page.say(template, &[Piece::Text(word)])
}

/// Whether a word isn't hexadecimal digits alone, with or without `0x`.
fn has_names(word: &str) -> bool {
    let digits = word.strip_prefix("0x").unwrap_or(word);
    !digits.is_empty() && wrong_digit(digits, false).is_some()
}

/// Says the first part of a word that is no bit of this register, and which bits it has.
fn names_words(page: &mut Page, register: u8, names: &[&'static str; 8], word: &str) -> bool {
    let mut compact = [""; 8];
    let mut count = 0usize;
    for name in names {
        if !name.is_empty() && count < 8 {
            compact[count] = name;
            count = count.saturating_add(1);
        }
    }
    let known = compact.get(..count).unwrap_or(&[]);
    page.say(
        "{1} has the bits{2}, joined by |, and not <{0}>",
        &[
            Piece::Text(first_other(known, word)),
            Piece::Text(name_of(register)),
            Piece::Words(" ", known, ""),
        ],
    )
}

/// The first part of a word that is none of these names, in either case; an empty one where each is.
fn first_other<'a>(known: &[&'static str], word: &'a str) -> &'a str {
    for part in word.split('|') {
        if !is_known(known, part) {
            return part;
        }
    }
    ""
}

/// Whether this is one of these names, in either case.
fn is_known(known: &[&'static str], part: &str) -> bool {
    for name in known {
        if name.eq_ignore_ascii_case(part) {
            return true;
        }
    }
    false
}

/// The name of the register at an address, the first one in the table.
fn name_of(register: u8) -> &'static str {
    for row in &REGISTERS {
        if row.1 == register {
            return row.0;
        }
    }
    ""
}
