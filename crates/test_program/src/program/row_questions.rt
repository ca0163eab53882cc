//! What a row asks for: words, a document, and how the program is tried.

use super::beginnings::{of_input, of_word};
use super::fed_input::{Behind, FedInput};
use super::groups::Groups;
use super::parts::part;
use super::trial::tried;
use super::ways::{alike, alone, by_both, fed};
use super::writes::{each_number, so_many};
use std::alloc::Global;
use std::io;
use std::sync::Wait;
use std::thread::Threads;
use test_rows::GivenLines;

/// What the program answers to a row. How it is tried stands behind ` | `:
///
/// - nothing: by `sja_alone` and by `sja`, of which the second answer stands behind the first where they differ;
/// - `alone`: by `sja_alone`; and each further way by `sja`;
/// - `alike WORDS`: the answer, and whether it is the same with these words behind the others, and writes something;
/// - `fed N end`, `fed N fault` or `fed N more`: over an input that gives N bytes a read, and behind the last one
///   nothing, a fault, or more bytes without end;
/// - `cut word`, `cut input` or `cut off`: with each beginning of the last word or of the input; the last where a read
///   behind it is interrupted;
/// - `each write` and `writes N N`: where writers take so many bytes, or writes;
/// - `then WORDS`: what these words answer over what the first ones write, of its report the last node;
/// - `last line`, `last node`, `lines FRONT`, `talk`, `changes CODE`, `levels` and `values CODE`: a part of what is
///   written.
///
/// Where ` < each` stands behind the words, the numbers that are given fill the document's `@` one after another.
pub(crate) fn answered<T: Threads + Wait + Sync>(
    rt: &T,
    alloc: Global,
    given: &GivenLines,
    row: &str,
) -> io::Result<String> {
    let (front, how) = row.split_once(" | ").unwrap_or((row, ""));
    let (words, text) = front.split_once(" < ").unwrap_or((front, ""));
    let (kind, more) = how.split_once(' ').unwrap_or((how, ""));
    let words = words_of(alloc, words)?;
    if text == "each" {
        return over_each(rt, alloc, given, &words, (kind, more));
    }
    let document = given.document(alloc, text)?;
    match kind {
        "cut" => cut(rt, alloc, words, &document, more),
        "each" => each_number(rt, alloc, &words, &document, numbers(given)),
        _ => answered_so(rt, alloc, words, &document, (kind, more)),
    }
}

/// The first and the last number that are given; the first one alone is both.
fn numbers(given: &GivenLines) -> (u32, u32) {
    let numbers = given.bits();
    (numbers.first, numbers.last.unwrap_or(numbers.first))
}

/// The words of a text, with a blank between two.
fn words_of(alloc: Global, text: &str) -> io::Result<Vec<String>> {
    let mut words = Vec::new(alloc);
    if text.is_empty() {
        return Ok(words);
    }
    for word in text.split(' ') {
        let mut word = word.replace(alloc, "''", "")?;
        for (text, byte) in [("%20", " "), ("%1b", "\u{1b}"), ("%9b", "\u{9b}")] {
            word = word.as_str().replace(alloc, text, byte)?;
        }
        words.push(word)?;
    }
    Ok(words)
}

/// The answers over the document with each number.
fn over_each<T: Threads + Wait + Sync>(
    rt: &T,
    alloc: Global,
    given: &GivenLines,
    words: &[String],
    how: (&str, &str),
) -> io::Result<String> {
    let mut groups = Groups::new(alloc);
    let (first, last) = numbers(given);
    for number in first..=last {
        let filled = format!(in alloc; "{number}")?;
        let document = given.document(alloc, filled.as_str())?;
        groups.add(number as usize, part(rt, alloc, words, &document, how)?)?;
    }
    groups.render()
}

/// The answers to each beginning.
fn cut<T: Threads + Wait + Sync>(
    rt: &T,
    alloc: Global,
    words: Vec<String>,
    document: &[u8],
    what: &str,
) -> io::Result<String> {
    match what {
        "word" => of_word(rt, alloc, words, document),
        "input" => of_input(rt, alloc, &words, document, Behind::End),
        _ => of_input(rt, alloc, &words, document, Behind::Interrupted),
    }
}

/// The answer, tried so.
fn answered_so<T: Threads + Wait + Sync>(
    rt: &T,
    alloc: Global,
    words: Vec<String>,
    document: &[u8],
    (kind, more): (&str, &str),
) -> io::Result<String> {
    match kind {
        "" => by_both(rt, alloc, &words, document),
        "alone" => alone(alloc, &words, document),
        "alike" => alike(rt, alloc, words, document, more),
        "fed" => fed(rt, alloc, &words, document, more),
        "writes" => so_many(rt, alloc, &words, document, more),
        "then" => then(rt, alloc, &words, document, more),
        _ => part(rt, alloc, &words, document, (kind, more)),
    }
}

/// What these words answer over what the first ones write: the last node of the report.
fn then<T: Threads + Wait + Sync>(
    rt: &T,
    alloc: Global,
    words: &[String],
    document: &[u8],
    next: &str,
) -> io::Result<String> {
    let first = tried(rt, alloc, words, &mut FedInput::whole(document));
    let next = words_of(alloc, next)?;
    part(rt, alloc, &next, &first.written, ("last", "node"))
}
