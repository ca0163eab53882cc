//! Whether words are what a form wants.

use super::super::page::{Page, Piece};
use super::access::{bits_words, register_words};
use super::argument::Argument;
use super::form::Form;
use super::message::message_words;
use super::number::{
    digits_fault, node_fault, number_fault, value_fault, without_prefix, wrong_digit,
};

/// The registers by their names, with their addresses (SJA1000 data sheet, 6.4.3).
static REGISTERS: [(&str, u32); 11] = [
    ("MOD", 0),
    ("CMR", 1),
    ("SR", 2),
    ("IR", 3),
    ("IER", 4),
    ("ALC", 11),
    ("ECC", 12),
    ("EWLR", 13),
    ("RXERR", 14),
    ("TXERR", 15),
    ("RMC", 29),
];

/// Says why words, the name among them, aren't of this form; false where they are.
pub(crate) fn form_words<'a>(
    page: &mut Page,
    form: &Form,
    nodes: usize,
    words: &'a [&'a str],
) -> bool {
    let count = form.arguments.len().saturating_add(1);
    let template = if words.len() == count {
        ""
    } else if form.name == "load" && words.len() > count {
        "the bytes stand without spaces: <load {1}>"
    } else {
        form.usage
    };
    page.say(
        template,
        &[
            Piece::Text(form.name),
            Piece::Words("", words.get(1..).unwrap_or(&[]), ""),
        ],
    ) || arguments_words(page, form.arguments, nodes, words)
}

/// Says which word behind the first isn't what it is to be; false where each is.
fn arguments_words<'a>(
    page: &mut Page,
    arguments: &[Argument],
    nodes: usize,
    words: &'a [&'a str],
) -> bool {
    let mut place = 1usize;
    for argument in arguments {
        if argument_words(page, *argument, nodes, words, place) {
            return true;
        }
        place = place.saturating_add(1);
    }
    false
}

/// Says why the word at this place isn't what it is to be; false where it is. `{0}` is the word, `{1}` and `{2}` are
/// the words before and behind it, `{3}` are its digits without `0x`, `{4}` is the name of what it is to be, from `{5}`
/// to `{6}`, `{7}` is the number that is meant, of `{8}` nodes, and `{9}` its first character that is no digit.
pub(crate) fn argument_words<'a>(
    page: &mut Page,
    argument: Argument,
    nodes: usize,
    words: &'a [&'a str],
    place: usize,
) -> bool {
    if place >= words.len() {
        return false;
    }
    match argument {
        Argument::Register => return register_words(page, words, place),
        Argument::Bits => return bits_words(page, words, place),
        _ => {}
    }
    let word = words[place];
    let (template, number) = fault_of(argument, nodes, word);
    let (name, least, most) = bounds_of(argument, nodes);
    let digits = without_prefix(word);
    let pieces = [
        Piece::Text(word),
        before(words, place),
        behind(words, place),
        Piece::Text(digits),
        Piece::Text(name),
        Piece::Number(least),
        Piece::Number(most),
        Piece::Number(u64::from(number)),
        Piece::Number(nodes as u64),
        wrong_in(digits),
    ];
    page.say(template, &pieces)
        || match argument {
            Argument::Message => message_words(page, word, false),
            Argument::Frame => message_words(page, word, true),
            _ => false,
        }
}

/// The word at this place; none where there are fewer.
pub(crate) fn word_at<'a>(words: &'a [&'a str], place: usize) -> &'a str {
    match words.get(place) {
        Some(word) => word,
        None => "",
    }
}

/// The words before this place, each with a space behind it.
fn before<'a>(words: &'a [&'a str], place: usize) -> Piece<'a> {
    Piece::Words("", words.get(..place).unwrap_or(&[]), " ")
}

/// The words behind this place, each with a space before it.
pub(crate) fn behind<'a>(words: &'a [&'a str], place: usize) -> Piece<'a> {
    Piece::Words(" ", words.get(place.saturating_add(1)..).unwrap_or(&[]), "")
}

/// The first character that is no hexadecimal digit; a space where there is none.
fn wrong_in(digits: &str) -> Piece<'static> {
    Piece::Character(wrong_digit(digits, false).unwrap_or(' '))
}

/// What is wrong with a word that is to be this.
fn fault_of(argument: Argument, nodes: usize, word: &str) -> (&'static str, u32) {
    match argument {
        Argument::Node => node_fault(nodes, word),
        Argument::Address => address_fault(word),
        Argument::Value => (value_fault(word), 0),
        Argument::Message | Argument::Frame => digits_fault(word),
        Argument::Register | Argument::Bits => ("", 0),
        Argument::Number(_, least, most) => number_fault(least, most, word),
    }
}

/// The name of a number that is to be this, and from where to where it is.
fn bounds_of(argument: Argument, nodes: usize) -> (&'static str, u64, u64) {
    match argument {
        Argument::Number(name, least, most) => (name, u64::from(least), u64::from(most)),
        Argument::Address => ("ADDRESS", 0, 255),
        _ => ("", 0, (nodes as u64).saturating_sub(1)),
    }
}

/// What is wrong with a word that is to be the address of a register.
fn address_fault(word: &str) -> (&'static str, u32) {
    for register in &REGISTERS {
        if register.0 == word {
            return (
                "a register goes by its address, in decimal: <{1}{7}{2}>",
                register.1,
            );
        }
    }
    number_fault(0, 255, word)
}
