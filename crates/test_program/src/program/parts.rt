//! A part of what the program writes.

use super::answer::{head, put_lines};
use super::fed_input::FedInput;
use super::talks::talk_of;
use super::trial::tried;
use super::waves::{changes_of, levels_of, values_of};
use std::alloc::Global;
use std::sync::Wait;
use std::thread::Threads;
use std::{io, str};

/// The status, and this part of what the program writes, as `asked` says.
pub(crate) fn part<T: Threads + Wait + Sync>(
    rt: &T,
    alloc: Global,
    words: &[String],
    document: &[u8],
    (kind, more): (&str, &str),
) -> io::Result<String> {
    let mut input = FedInput::whole(document);
    let tried = tried(rt, alloc, words, &mut input);
    let text = str::from_utf8(&tried.written).unwrap_or("");
    let part = part_of(alloc, text, kind, more)?;
    let mut answer = head(alloc, &tried, &input)?;
    put_lines(&mut answer, "\n> ", part.as_bytes())?;
    put_lines(&mut answer, "\n! ", &tried.told)?;
    Ok(answer)
}

/// This part of a text.
fn part_of(alloc: Global, text: &str, kind: &str, more: &str) -> io::Result<String> {
    match kind {
        "last" => last_of(alloc, text, more),
        "lines" => lines_of(alloc, text, more),
        "talk" => talk_of(alloc, text),
        "changes" => Ok(format!(in alloc; "{}\n", changes_of(text, more))?),
        "levels" => Ok(format!(in alloc; "{}\n", levels_of(text))?),
        _ => values_of(alloc, text, more),
    }
}

/// The lines that begin so.
fn lines_of(alloc: Global, text: &str, front: &str) -> io::Result<String> {
    let mut lines = String::new(alloc);
    for line in text.lines() {
        if line.starts_with(front) {
            lines.push_str(line)?;
            lines.push('\n')?;
        }
    }
    Ok(lines)
}

/// The last line; or of a report how the run ended, and what stands behind the error counters of the last node.
fn last_of(alloc: Global, text: &str, what: &str) -> io::Result<String> {
    let lines = text.strip_suffix('\n').unwrap_or(text);
    if what == "line" {
        let (_, last) = lines.rsplit_once('\n').unwrap_or(("", lines));
        return Ok(format!(in alloc; "{last}\n")?);
    }
    let (first, _) = lines.split_once('\n').unwrap_or((lines, ""));
    let (_, end) = first.split_once(" end ").unwrap_or(("", ""));
    let (_, last) = lines.rsplit_once(" steps ").unwrap_or(("", ""));
    Ok(format!(in alloc; "end {end}\nsteps {last}\n")?)
}
