//! Words that are to be numbers.
//!
//! What is wrong with a word is a template, empty where nothing is, with the number that is meant. `argument_words`
//! says what its gaps are.

use sja_plan_reading::{GREATEST_NUMBER, MOST_DIGITS, number_within};

/// The number that a word spells with one to seven decimal digits.
pub(crate) fn number_in(word: &str) -> Option<u32> {
    number_within(word, 0, GREATEST_NUMBER).ok()
}

/// What is wrong with a word that is to be a number from where to where.
pub(crate) fn number_fault(least: u32, most: u32, word: &str) -> (&'static str, u32) {
    let (number, is_decimal) = match number_in(word) {
        Some(number) => (Some(number), true),
        None => (hexadecimal_in(word), false),
    };
    let Some(number) = number else {
        return (no_number_fault(word), 0);
    };
    let is_within = least <= number && number <= most;
    let template = match (is_decimal, is_within) {
        (true, true) => "",
        (true, false) => "{4} is from {5} to {6}, and here it is {7}",
        (false, true) => "numbers are decimal, without 0x: <{1}{7}{2}>",
        (false, false) => "numbers are decimal, without 0x",
    };
    (template, number)
}

/// What is wrong with a word that spells no number.
fn no_number_fault(word: &str) -> &'static str {
    match wrong_digit(word, true) {
        None => "a number has one to seven digits",
        Some(_) => "{4} is a number from {5} to {6}, in digits alone, and not <{0}>",
    }
}

/// The number that a word spells with hexadecimal digits, with or without `0x` before them.
fn hexadecimal_in(word: &str) -> Option<u32> {
    let digits = without_prefix(word);
    if digits.len() > MOST_DIGITS || wrong_digit(digits, false).is_some() {
        return None;
    }
    u32::from_str_radix(digits, 16).ok()
}

/// The first character of a word that is no digit, decimal or hexadecimal.
pub(crate) fn wrong_digit(word: &str, is_decimal: bool) -> Option<char> {
    for character in word.chars() {
        let radix = if is_decimal { 10 } else { 16 };
        if !character.is_digit(radix) {
            return Some(character);
        }
    }
    None
}

/// The word without the `0x` or `0X` that it begins with.
pub(crate) fn without_prefix(word: &str) -> &str {
    match word.strip_prefix("0x") {
        Some(digits) => digits,
        None => word.strip_prefix("0X").unwrap_or(word),
    }
}

/// What is wrong with a word that is to be one of so many nodes.
pub(crate) fn node_fault(nodes: usize, word: &str) -> (&'static str, u32) {
    let Some(node) = number_in(word) else {
        return (
            "K is the number of a node, counted from 0, and not <{0}>",
            0,
        );
    };
    if (node as usize) < nodes {
        return ("", 0);
    }
    if nodes <= 1 {
        return (
            "there is no node {7}: the plan has one node, and its number is 0",
            node,
        );
    }
    (
        "there is no node {7}: the plan has {8} nodes, counted from 0 to {6}",
        node,
    )
}

/// What is wrong with a word that is to be two hexadecimal digits.
pub(crate) fn value_fault(word: &str) -> &'static str {
    let digits = without_prefix(word);
    if wrong_digit(digits, false).is_some() || digits.is_empty() || digits.len() > 2 {
        return "a VALUE is two hexadecimal digits, 00 to ff, and not <{0}>";
    }
    if word.len() == 2 {
        return "";
    }
    if digits.len() == 1 {
        return "a VALUE is two hexadecimal digits without 0x: <{1}0{3}>";
    }
    "a VALUE is two hexadecimal digits without 0x: <{1}{3}>"
}

/// What is wrong with a word that is to be the bytes of a message, with how many digits it has. Where the digits spell
/// bytes, or it is in another notation, that isn't judged here.
pub(crate) fn digits_fault(word: &str) -> (&'static str, u32) {
    let digits = without_prefix(word);
    let count = u32::try_from(digits.len()).unwrap_or(u32::MAX);
    if word.contains('#') {
        return ("", 0);
    }
    if wrong_digit(digits, false).is_some() {
        return (
            "a MESSAGE is hexadecimal digits, two a byte, and no digit is <{9}>",
            0,
        );
    }
    if digits.len() != word.len() {
        return ("the bytes stand without 0x: <load {3}>", 0);
    }
    if digits.len() % 2 != 0 {
        return ("two digits are a byte, and here are {7} digits", count);
    }
    ("", 0)
}
