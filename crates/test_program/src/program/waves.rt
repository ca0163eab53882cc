//! What a waveform has of a signal.

use std::alloc::Global;
use std::fmt::Write;
use std::io;

/// How often this signal changes after the first values.
pub(crate) fn changes_of(wave: &str, signal: &str) -> usize {
    let mut count = 0usize;
    for line in wave.lines() {
        if line.len() > 1 && line.is_char_boundary(1) && &line[1..] == signal {
            count = count.saturating_add(1);
        }
    }
    count.saturating_sub(1)
}

/// How many levels are given: the lines that begin with 0 or 1.
pub(crate) fn levels_of(wave: &str) -> usize {
    let mut count = 0usize;
    for line in wave.lines() {
        if line.starts_with('0') || line.starts_with('1') {
            count = count.saturating_add(1);
        }
    }
    count
}

/// The values that a wave has of this signal, each behind its time in a line of its own: the lines that end in its
/// code, without a code that stands behind a space.
pub(crate) fn values_of(alloc: Global, wave: &str, signal: &str) -> io::Result<String> {
    let mut values = String::new(alloc);
    let mut time = String::new(alloc);
    for line in wave.lines() {
        if let Some(number) = line.strip_prefix('#') {
            time.clear();
            time.push_str(number)?;
        } else if line.ends_with(signal) && !line.starts_with('$') {
            put_value(&mut values, time.as_str(), front_of(line))?;
        }
    }
    Ok(values)
}

/// What stands before the first space of a line; all of it where there is none.
fn front_of(line: &str) -> &str {
    match line.split_once(' ') {
        Some((front, _)) => front,
        None => line,
    }
}

/// Writes a value behind its time, in a line.
fn put_value(values: &mut String, time: &str, value: &str) -> io::Result<()> {
    write!(values, "{time} {value}\n")?;
    Ok(())
}
