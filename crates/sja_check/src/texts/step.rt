//! Texts that say no step.

use super::argument::Argument;
use super::form::Form;
use sja_plan::{FIRST_BY_BYTES, MOST_BITS_BY_BYTES};

/// What is said where something stands behind a step that stands alone.
const ALONE: &str = "this step stands alone: <{0}>";

/// The forms of steps. The first of a name that a version has is its form there.
pub(crate) static STEPS: [Form; 16] = [
    Form {
        name: "read",
        since: FIRST_BY_BYTES,
        arguments: &[Argument::Register],
        usage: "the form is \"read ADDRESS\", a register's name or its number: \"read SR\"",
    },
    Form {
        name: "write",
        since: FIRST_BY_BYTES,
        arguments: &[Argument::Register, Argument::Bits],
        usage: "the form is \"write ADDRESS VALUE\", by names or as bytes: \"write CMR TR\", \"write 1 01\"",
    },
    Form {
        name: "load",
        since: FIRST_BY_BYTES,
        arguments: &[Argument::Frame],
        usage: "the form is \"load MESSAGE\", as \"load 123#1122\" or the bytes \"load 0224601122\"",
    },
    Form {
        name: "command",
        since: FIRST_BY_BYTES,
        arguments: &[Argument::Bits],
        usage: "the form is \"command VALUE\", names of bits of CMR, or two digits: \"command TR\"",
    },
    Form {
        name: "start",
        since: 1,
        arguments: &[],
        usage: ALONE,
    },
    Form {
        name: "stop",
        since: 1,
        arguments: &[],
        usage: ALONE,
    },
    Form {
        name: "window",
        since: 1,
        arguments: &[],
        usage: ALONE,
    },
    Form {
        name: "release",
        since: 1,
        arguments: &[],
        usage: ALONE,
    },
    Form {
        name: "read",
        since: 1,
        arguments: &[Argument::Address],
        usage: "the form is \"read ADDRESS\", the register's address in decimal: \"read 2\"",
    },
    Form {
        name: "write",
        since: 1,
        arguments: &[Argument::Address, Argument::Value],
        usage: "the form is \"write ADDRESS VALUE\", decimal and two hexadecimal digits: \"write 4 ff\"",
    },
    Form {
        name: "load",
        since: 1,
        arguments: &[Argument::Message],
        usage: "the form is \"load MESSAGE\", the bytes of the transmit buffer: \"load 000000\"",
    },
    Form {
        name: "command",
        since: 1,
        arguments: &[Argument::Value],
        usage: "the form is \"command VALUE\", two hexadecimal digits: \"command 01\"",
    },
    Form {
        name: "await",
        since: 1,
        arguments: &[Argument::Number("N of \"await N\"", 1, 21)],
        usage: "the form is \"await N\", N messages from 1 to 21: \"await 2\"",
    },
    Form {
        name: "sent",
        since: 1,
        arguments: &[],
        usage: ALONE,
    },
    Form {
        name: "interrupt",
        since: FIRST_BY_BYTES,
        arguments: &[],
        usage: ALONE,
    },
    Form {
        name: "at",
        since: FIRST_BY_BYTES,
        arguments: &[Argument::Number("B of \"at B\"", 0, MOST_BITS_BY_BYTES)],
        usage: "the form is \"at B\", B bits from 0 to 2000000: \"at 500\"",
    },
];

/// What steps begin with; version 3 alone has the last two.
static NAMES: [&str; 12] = [
    "start",
    "stop",
    "window",
    "release",
    "read",
    "write",
    "load",
    "command",
    "await",
    "sent",
    "interrupt",
    "at",
];

/// Words that begin no step, with what is said of them.
static KNOWN: [(&str, &str); 13] = [
    (
        "interrupt",
        "a driver waits for its interrupt line in version 3 alone: version = 3",
    ),
    ("send", SENDING),
    ("transmit", SENDING),
    ("tx", SENDING),
    ("receive", RECEIVING),
    ("recv", RECEIVING),
    ("rx", RECEIVING),
    ("bus", TURNS),
    ("rest", TURNS),
    ("node", TURNS),
    ("wait", WAITING),
    ("sleep", WAITING),
    ("delay", WAITING),
];

const SENDING: &str =
    "a frame is sent by two steps, \"load MESSAGE\" and \"command 01\"; \"sent\" waits for it";

const RECEIVING: &str = "\"await 1\" waits for a message, and \"release\" takes it";

const TURNS: &str = "turns begin so, and stand in the list turns: <{0}>";

const WAITING: &str =
    "a driver doesn't wait for bits: the turns \"bus N\" and \"rest\" let them run";

/// What is said in version 3 where that is said before it.
const WAITING_FOR_BITS: &str = "\"at B\" waits until B bits have run: \"at 500\"";

/// Whether a step of this version begins with this word.
pub(crate) fn begins_step(version: u8, word: &str) -> bool {
    names_of(version).contains(&word)
}

/// What is known of a word that begins no step of this version; nothing where it isn't among those.
pub(crate) fn known_of(version: u8, name: &str) -> &'static str {
    for row in &KNOWN {
        if row.0 == name {
            return if version >= FIRST_BY_BYTES && row.1 == WAITING {
                WAITING_FOR_BITS
            } else {
                row.1
            };
        }
    }
    ""
}

/// What steps of this version begin with.
pub(crate) fn names_of(version: u8) -> &'static [&'static str] {
    let count = if version < FIRST_BY_BYTES { 10 } else { 12 };
    NAMES.get(..count).unwrap_or(&[])
}

/// What steps of this version begin with, in words.
pub(crate) fn steps_are(version: u8) -> &'static str {
    if version < FIRST_BY_BYTES {
        "steps are start, stop, window, release, read, write, load, command, await, sent"
    } else {
        "steps are start, stop, window, release, read, write, load, command, await, sent, interrupt, at"
    }
}
