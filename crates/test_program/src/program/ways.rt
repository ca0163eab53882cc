//! The ways in which the program is tried.

use super::answer::shown;
use super::fed_input::{Behind, FedInput};
use super::trial::{tried, tried_alone};
use std::alloc::Global;
use std::fmt::Write;
use std::io;
use std::sync::Wait;
use std::thread::Threads;

/// The answer of one thread, and behind it that with threads where it is another one.
pub(crate) fn by_both<T: Threads + Wait + Sync>(
    rt: &T,
    alloc: Global,
    words: &[String],
    document: &[u8],
) -> io::Result<String> {
    let mut text = alone(alloc, words, document)?;
    let all = by_threads(rt, alloc, words, document)?;
    if all != text {
        text.push_str(all.as_str())?;
    }
    Ok(text)
}

/// The answer of one thread.
pub(crate) fn alone(alloc: Global, words: &[String], document: &[u8]) -> io::Result<String> {
    let mut input = FedInput::whole(document);
    let tried = tried_alone(alloc, words, &mut input);
    shown(alloc, &tried, &input)
}

/// The answer with threads.
fn by_threads<T: Threads + Wait + Sync>(
    rt: &T,
    alloc: Global,
    words: &[String],
    document: &[u8],
) -> io::Result<String> {
    let mut input = FedInput::whole(document);
    let tried = tried(rt, alloc, words, &mut input);
    shown(alloc, &tried, &input)
}

/// The status, and whether these words behind the others change nothing of the answer, which has a line.
pub(crate) fn alike<T: Threads + Wait + Sync>(
    rt: &T,
    alloc: Global,
    mut words: Vec<String>,
    document: &[u8],
    more: &str,
) -> io::Result<String> {
    let first = by_threads(rt, alloc, &words, document)?;
    for word in more.split(' ') {
        words.push(String::from_str(alloc, word)?)?;
    }
    let second = by_threads(rt, alloc, &words, document)?;
    let (head, lines) = first.split_once('\n').unwrap_or((first.as_str(), ""));
    let is_alike = first == second && !lines.is_empty();
    let said = if is_alike { "alike" } else { "otherwise" };
    Ok(format!(in alloc; "{head}, {said}")?)
}

/// The answer over an input that gives so many bytes a read, and what is read.
pub(crate) fn fed<T: Threads + Wait + Sync>(
    rt: &T,
    alloc: Global,
    words: &[String],
    document: &[u8],
    how: &str,
) -> io::Result<String> {
    let (most, behind) = how.split_once(' ').unwrap_or((how, ""));
    let behind = match behind {
        "fault" => Behind::Fault,
        "more" => Behind::More,
        _ => Behind::End,
    };
    let mut input = FedInput::new(document, most.parse::<usize>().unwrap_or(0), behind);
    let tried = tried(rt, alloc, words, &mut input);
    let mut text = shown(alloc, &tried, &input)?;
    write!(text, "\n{} bytes in {} reads", input.bytes, input.reads)?;
    Ok(text)
}
