//! What a long talk has at its end.

use std::alloc::Global;
use std::fmt::Write;
use std::io;

/// How many answers are told.
const LAST: usize = 12;

/// How many lines of answers stand before the report, the last of them, and the first line of the report, if there is
/// one.
pub(crate) fn talk_of(alloc: Global, talk: &str) -> io::Result<String> {
    let (answers, report) = talk.split_once("sja ").unwrap_or((talk, ""));
    let lines = lines_in(answers);
    let mut text = String::new(alloc);
    write!(text, "{lines} lines, the last:\n")?;
    let mut place = 0usize;
    for line in answers.lines() {
        place = place.saturating_add(1);
        if lines.saturating_sub(place) < LAST {
            put_line(&mut text, "", line)?;
        }
    }
    if let Some(first) = report.lines().next() {
        put_line(&mut text, "sja ", first)?;
    }
    Ok(text)
}

/// How many lines a text has.
fn lines_in(text: &str) -> usize {
    let mut count = 0usize;
    for _ in text.lines() {
        count = count.saturating_add(1);
    }
    count
}

/// Adds a line behind this.
fn put_line(text: &mut String, front: &str, line: &str) -> io::Result<()> {
    text.push_str(front)?;
    text.push_str(line)?;
    text.push('\n')?;
    Ok(())
}
