//! Texts that say no strike, and for how many strikes texts count.

use super::super::page::{Page, Piece};
use super::argument::Argument;
use super::judge::{argument_words, behind, word_at};
use super::number::number_in;
use super::placed::{are_placed, placed_words};
use sja_plan::FIRST_BY_BYTES;
use sja_plan_reading::GREATEST_NUMBER;
use toml::Value;

/// The forms of strikes, in words.
const STRIKES_ARE: &str =
    "the form is \"K B\", node K at bit B, or \"K B E T\", then every E bits, T times in all";

/// The numbers of a strike.
static NUMBERS: [Argument; 4] = [
    Argument::Node,
    Argument::Number("the bit", 0, GREATEST_NUMBER),
    Argument::Number("E of \"K B E T\"", 1, GREATEST_NUMBER),
    Argument::Number("T of \"K B E T\"", 1, GREATEST_NUMBER),
];

/// Says why words say no strike of a plan of this version with so many nodes, and what would; false where they say one.
pub(crate) fn strike_words<'a>(
    page: &mut Page,
    version: u8,
    nodes: usize,
    words: &'a [&'a str],
) -> bool {
    if version == FIRST_BY_BYTES && are_placed(words) {
        return placed_words(page, nodes, words);
    }
    let is_named = word_at(words, 0) == "node";
    let first = usize::from(is_named);
    let count = words.len().saturating_sub(first);
    let template = if count != 2 && count != 4 {
        STRIKES_ARE
    } else if is_named {
        "a strike is numbers alone, node and bit: <{0}{1}>"
    } else {
        ""
    };
    let pieces = [Piece::Text(word_at(words, first)), behind(words, first)];
    page.say(template, &pieces) || numbers_words(page, nodes, words)
}

/// Says why words aren't the numbers of a strike; false where they are. The node and the bit are shown together.
fn numbers_words<'a>(page: &mut Page, nodes: usize, words: &'a [&'a str]) -> bool {
    for (place, argument) in NUMBERS.iter().enumerate() {
        let from = if place < 2 { 0 } else { place };
        let shown = words
            .get(from..place.max(1).saturating_add(1))
            .unwrap_or(&[]);
        if argument_words(page, *argument, nodes, shown, place.saturating_sub(from)) {
            return true;
        }
    }
    false
}

/// For how many strikes these texts count: one of four numbers for its last one, and any other for 1.
pub(crate) fn strikes_in(values: &[Value]) -> u64 {
    let mut total = 0u64;
    for value in values {
        let count = match value {
            Value::String(text) => last_of_four(text.as_str()).unwrap_or(1),
            _ => 1,
        };
        total = total.saturating_add(u64::from(count));
    }
    total
}

/// The last of the four numbers that a text is, where it is four numbers.
fn last_of_four(text: &str) -> Option<u32> {
    let mut last = None;
    let mut count = 0u32;
    for word in text.split(' ') {
        last = number_in(word);
        count = count.saturating_add(1);
        if count > 4 || last.is_none() {
            return None;
        }
    }
    if count == 4 { last } else { None }
}
