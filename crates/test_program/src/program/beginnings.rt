//! What the program answers to each beginning of a word, or of its input.

use super::answer::{put_status, shown};
use super::fed_input::{Behind, FedInput};
use super::groups::Groups;
use super::trial::{Outcome, tried};
use std::alloc::Global;
use std::fmt::Write;
use std::sync::Wait;
use std::thread::Threads;
use std::{io, str};

/// The answers to the words with each beginning of the last one, by how many bytes it has.
pub(crate) fn of_word<T: Threads + Wait + Sync>(
    rt: &T,
    alloc: Global,
    mut words: Vec<String>,
    document: &[u8],
) -> io::Result<String> {
    let last = words.pop().unwrap_or(String::new(alloc));
    let mut groups = Groups::new(alloc);
    for count in 0..=last.len() {
        let beginning = last.as_bytes().get(..count).unwrap_or(b"");
        let beginning = str::from_utf8(beginning).unwrap_or("");
        words.push(String::from_str(alloc, beginning)?)?;
        let tried = tried(rt, alloc, &words, &mut FedInput::whole(document));
        groups.add(count, judged(alloc, &tried)?)?;
        words.pop();
    }
    groups.render()
}

/// The answers over each beginning of the input, by how many bytes it has. Where reads behind it are interrupted they
/// are whole, and say how many reads are made.
pub(crate) fn of_input<T: Threads + Wait + Sync>(
    rt: &T,
    alloc: Global,
    words: &[String],
    document: &[u8],
    behind: Behind,
) -> io::Result<String> {
    let mut groups = Groups::new(alloc);
    for count in 0..=document.len() {
        let beginning = document.get(..count).unwrap_or(b"");
        let mut input = FedInput::new(beginning, usize::MAX, behind);
        let tried = tried(rt, alloc, words, &mut input);
        let text = match behind {
            Behind::Interrupted => with_reads(alloc, &tried, &input)?,
            _ => judged(alloc, &tried)?,
        };
        groups.add(count, text)?;
    }
    groups.render()
}

/// The answer, and how many reads are made.
fn with_reads(alloc: Global, tried: &Outcome, input: &FedInput<'_>) -> io::Result<String> {
    let mut text = shown(alloc, tried, input)?;
    write!(text, "\nin {} reads", input.reads)?;
    Ok(text)
}

/// The status, and whether one line is written, or told as an error, and nothing else.
fn judged(alloc: Global, tried: &Outcome) -> io::Result<String> {
    let mut text = String::from_str(alloc, " -> ")?;
    put_status(&mut text, tried)?;
    let kind = match tried.status {
        Some(0) if tried.told.is_empty() => kind_of(&tried.written),
        Some(1) if tried.written.is_empty() => kind_of(&tried.told),
        _ => "neither",
    };
    text.push_str(kind)?;
    Ok(text)
}

/// Whether a text is one line, or another one that isn't empty.
fn kind_of(text: &[u8]) -> &'static str {
    let text = str::from_utf8(text).unwrap_or("");
    match text.split_once('\n') {
        Some((_, behind)) if behind.is_empty() => ", one line",
        _ if text.is_empty() => ", nothing",
        _ => ", a text",
    }
}
