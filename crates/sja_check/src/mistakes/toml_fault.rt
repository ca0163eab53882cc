//! Text that is no TOML document.

use super::super::outline::{Front, column_at, line_at};
use super::super::page::{Page, Piece};
use sja_plan_reading::{MOST_BYTES, PlanFault, faulty_line, read_plan};
use std::alloc::{AllocError, Global};
use toml::table_from_str;

/// A fault of a document as `toml` names it, short enough for a line, and what to look for.
struct Fault {
    message: &'static str,
    short: &'static str,
    advice: &'static str,
}

/// The faults whose names are too long for a line, or that have an advice.
static FAULTS: [Fault; 9] = [
    Fault {
        message: "invalid key, expected letters, numbers, `-`, `_` or a quoted key",
        short: "a key is expected here",
        advice: "",
    },
    Fault {
        message: "key with no value, expected `=`",
        short: "= and a value are expected behind the key",
        advice: "",
    },
    Fault {
        message: "unexpected key or value, expected newline, `#`",
        short: "the line has to end here",
        advice: "",
    },
    Fault {
        message: "missing comma between array elements, expected `,` or `]`",
        short: "a comma or ] is expected here",
        advice: "look for a quote or a comma that is missing before: [\"start\", \"release\"]",
    },
    Fault {
        message: "missing comma between key-value pairs, expected `,` or `}`",
        short: "a comma or } is expected here",
        advice: "",
    },
    Fault {
        message: "invalid string",
        short: "the text isn't closed",
        advice: "a text ends in its line, with the quote that it begins with",
    },
    Fault {
        message: "invalid value, expected a string, number, boolean, date-time, array or inline table",
        short: "a value is expected here",
        advice: "a text stands in quotes, and a list in brackets: [\"start\", \"release\"]",
    },
    Fault {
        message: "duplicate key",
        short: "the key stands there twice",
        advice: "each key stands once; [[node]], with two brackets, may come again",
    },
    Fault {
        message: "cannot extend a value with a dotted key",
        short: "cannot extend a value with a dotted key",
        advice: "a header and a key have the same name",
    },
];

/// Says where the text stops being TOML, and why.
pub(crate) fn no_toml(page: &mut Page, bytes: &[u8]) -> bool {
    let Ok(text) = str::from_utf8(bytes) else {
        return false;
    };
    let Ok((begun, part)) = faulty_part(page.alloc, text) else {
        return page.refuse();
    };
    match table_from_str(page.alloc, part) {
        Ok(_) => false,
        Err(error) => match error.span() {
            Some(span) => {
                let place = begun.saturating_add(span.start);
                fault_words(page, bytes, place, error.message())
            }
            None => page.refuse(),
        },
    }
}

/// The part of a text that has its fault, and where it begins, so that of a long one no tables are built of more: its
/// front, where that isn't TOML; from its first line on that isn't TOML, where such a line stands behind a document;
/// else all of it.
///
/// Error: memory was refused.
fn faulty_part<'a>(alloc: Global, text: &'a str) -> Result<(usize, &'a str), AllocError> {
    if text.len() <= MOST_BYTES {
        return Ok((0, text));
    }
    let front = text
        .get(..Front::of(text.as_bytes(), MOST_BYTES).line)
        .unwrap_or("");
    if table_from_str(alloc, front).is_err() {
        return Ok((0, front));
    }
    let Some(rest) = faulty_line(alloc, text)? else {
        return Ok((0, text));
    };
    let begun = text.len().saturating_sub(rest.len());
    match read_plan(alloc, text.as_bytes().get(..begun).unwrap_or(&[])) {
        Err(PlanFault::Toml | PlanFault::Memory) => Ok((0, text)),
        _ => Ok((begun, rest)),
    }
}

/// Says the fault at this place that `toml` names so.
fn fault_words(page: &mut Page, bytes: &[u8], place: usize, message: &str) -> bool {
    let (short, advice) = known_of(message);
    let template = if short.is_empty() {
        "line {0}, column {1}: no TOML: {2}"
    } else {
        "line {0}, column {1}: no TOML: {3}"
    };
    page.say(
        template,
        &[
            Piece::Number(line_at(bytes, place) as u64),
            Piece::Number(column_at(bytes, place) as u64),
            Piece::Text(message),
            Piece::Text(short),
        ],
    );
    let behind = bytes.get(place..).unwrap_or(&[]);
    page.say(advice_at(behind, advice), &[]) || near_text(page, behind)
}

/// What to look for where this stands at the place, and this is the advice of the fault.
fn advice_at(behind: &[u8], advice: &'static str) -> &'static str {
    if behind.starts_with(b"//") || behind.starts_with(b";") {
        "a comment begins with #"
    } else {
        advice
    }
}

/// The short name and the advice of the fault that `toml` names so; nothing where it isn't among these.
fn known_of(message: &str) -> (&'static str, &'static str) {
    for fault in &FAULTS {
        if fault.message == message {
            return (fault.short, fault.advice);
        }
    }
    ("", "")
}

/// Says what is written at a place.
fn near_text(page: &mut Page, behind: &[u8]) -> bool {
    let near = behind.get(..end_of_near(behind)).unwrap_or(&[]);
    if near.is_empty() {
        return page.say("the line ends there", &[]);
    }
    match String::from_utf8_lossy(page.alloc, near) {
        Ok(near) => page.say("there stands <{0}>", &[Piece::Text(near.as_str())]),
        Err(_) => page.refuse(),
    }
}

/// How many bytes of the line are shown at a place.
fn end_of_near(behind: &[u8]) -> usize {
    let mut end = 0usize;
    for byte in behind {
        if *byte == b'\n' || *byte == b'\r' || end > 30 {
            break;
        }
        end += 1;
    }
    end
}
