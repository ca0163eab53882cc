//! Texts that say no strike at a place.

use super::super::page::{Page, Piece};
use super::argument::Argument;
use super::judge::{argument_words, behind, word_at};
use super::number::number_in;
use sja_plan_reading::{GREATEST_NUMBER, place_of_word, place_of_words};

/// The forms of strikes of version 3, in words.
const STRIKES_ARE: &str =
    "the forms are \"K B\", \"K B E T\", \"K frame N PLACE\", \"K PLACE xT\": node K, bit B or a place";

/// The places, in words.
const PLACES_ARE: &str =
    "<{0}{1}> is no place; places are SOF, ID.28, RTR, DLC.3, data 2.3, CRC.14, ACK, EOF.1, stuff.1 ..";

/// Whether words are to say a strike at a place: the second one is no number, and there are more or it is a place.
pub(crate) fn are_placed(words: &[&str]) -> bool {
    let second = word_at(words, 1);
    number_in(second).is_none() && (words.len() > 2 || place_of_word(second).is_some())
}

/// Says why words say no strike at a place of a plan with so many nodes, and what would; false where they say one.
pub(crate) fn placed_words<'a>(page: &mut Page, nodes: usize, words: &'a [&'a str]) -> bool {
    if argument_words(page, Argument::Node, nodes, words, 0) {
        return true;
    }
    if word_at(words, 1) == "frame" {
        return numbered_words(page, nodes, words);
    }
    let (place, times) = match words.len() {
        3 | 4 => words[1..].split_at(words.len() - 2),
        _ => return page.say(STRIKES_ARE, &[]),
    };
    place_words(page, place) || times_words(page, word_at(times, 0))
}

/// The same of a place in the frame of a number.
fn numbered_words<'a>(page: &mut Page, nodes: usize, words: &'a [&'a str]) -> bool {
    if words.len() != 4 && words.len() != 5 {
        return page.say(STRIKES_ARE, &[]);
    }
    let number = Argument::Number("N of \"K frame N PLACE\"", 1, GREATEST_NUMBER);
    argument_words(page, number, nodes, words, 2) || place_words(page, &words[3..])
}

/// Says that words are no place; false where they are one.
fn place_words<'a>(page: &mut Page, words: &'a [&'a str]) -> bool {
    let is_place = match *words {
        [word] => place_of_word(word).is_some(),
        [word, more] => place_of_words(word, more).is_some(),
        _ => false,
    };
    let template = if is_place { "" } else { PLACES_ARE };
    page.say(
        template,
        &[Piece::Text(word_at(words, 0)), behind(words, 0)],
    )
}

/// Says that a word isn't how many frames are meant; false where it is.
fn times_words<'a>(page: &mut Page, word: &'a str) -> bool {
    let number = match word.strip_prefix('x') {
        Some(digits) => number_in(digits),
        None => None,
    };
    let template = match number {
        Some(number) if number > 0 => "",
        _ => "<{0}> isn't how many frames: \"x\" with a number behind it, as x32",
    };
    page.say(template, &[Piece::Text(word)])
}
