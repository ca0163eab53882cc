//! What the program answers, as text.

use super::fed_input::FedInput;
use super::trial::Outcome;
use std::alloc::Global;
use std::fmt::Write;
use std::{io, str};

/// The status, what was read, and the lines that were written, behind `> `, or told as an error, behind `! `.
///
/// `usage` stands for status 2 with nothing on the output and some text on the error output, `left` for no status.
pub(crate) fn shown(alloc: Global, tried: &Outcome, input: &FedInput<'_>) -> io::Result<String> {
    let mut text = head(alloc, tried, input)?;
    put_lines(&mut text, "\n> ", &tried.written)?;
    if !is_usage(tried) {
        put_lines(&mut text, "\n! ", &tried.told)?;
    }
    Ok(text)
}

/// The status, and what was read.
pub(crate) fn head(alloc: Global, tried: &Outcome, input: &FedInput<'_>) -> io::Result<String> {
    let mut text = String::from_str(alloc, " -> ")?;
    put_status(&mut text, tried)?;
    if input.left.is_empty() {
        text.push_str(", read")?;
    } else if input.left.len() == input.length {
        text.push_str(", unread")?;
    } else {
        write!(text, ", {} bytes unread", input.left.len())?;
    }
    if tried.failed {
        text.push_str(", a write failed")?;
    }
    Ok(text)
}

/// Adds the status.
pub(crate) fn put_status(text: &mut String, tried: &Outcome) -> io::Result<()> {
    if is_usage(tried) {
        text.push_str("usage")?;
    } else if let Some(status) = tried.status {
        write!(text, "{status}")?;
    } else {
        text.push_str("left")?;
    }
    Ok(())
}

/// Whether the status is 2, with nothing on the output and some text on the error output.
pub(crate) fn is_usage(tried: &Outcome) -> bool {
    match tried.status {
        Some(2) => tried.written.is_empty() && !tried.told.is_empty(),
        _ => false,
    }
}

/// Adds each line of a text behind this, and a line where the last one has no end.
pub(crate) fn put_lines(text: &mut String, front: &str, bytes: &[u8]) -> io::Result<()> {
    let lines = str::from_utf8(bytes).unwrap_or("no text");
    if lines.is_empty() {
        return Ok(());
    }
    let ended = lines.strip_suffix('\n');
    for line in ended.unwrap_or(lines).split('\n') {
        text.push_str(front)?;
        text.push_str(line)?;
    }
    if ended.is_none() {
        text.push_str("\nwithout an end of line")?;
    }
    Ok(())
}
