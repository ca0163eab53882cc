//! Texts that say no turn.

use super::argument::Argument;
use super::form::Form;
use super::number::number_in;
use super::step::begins_step;
use sja_plan::FIRST_BY_BYTES;
use sja_plan_reading::GREATEST_NUMBER;

/// The forms of turns. Of two with one name the first one says what both are.
pub(crate) static TURNS: [Form; 6] = [
    Form {
        name: "bus",
        since: 1,
        arguments: &[Argument::Number("N of \"bus N\"", 1, GREATEST_NUMBER)],
        usage: "the form is \"bus N\", N bits from 1: \"bus 12\"",
    },
    Form {
        name: "rest",
        since: 1,
        arguments: &[],
        usage: "this turn stands alone, and lasts until all is quiet: \"rest\"",
    },
    Form {
        name: "node",
        since: 3,
        arguments: &[Argument::Node],
        usage: "the form is \"node K\", all that node K can do, or \"node K N\", N steps: \"node 1\"",
    },
    Form {
        name: "node",
        since: 1,
        arguments: &[
            Argument::Node,
            Argument::Number("N of \"node K N\"", 0, GREATEST_NUMBER),
        ],
        usage: "the form is \"node K N\", N steps of node K, counted from 0: \"node 1 3\"",
    },
    Form {
        name: "irq",
        since: 3,
        arguments: &[
            Argument::Node,
            Argument::Number("N of \"irq K N\"", 1, GREATEST_NUMBER),
        ],
        usage: "the form is \"irq K N\", until node K's interrupt, N bits at most: \"irq 1 500\"",
    },
    Form {
        name: "go",
        since: 3,
        arguments: &[],
        usage: "this turn stands alone, and all drivers do what they can: \"go\"",
    },
];

/// What turns begin with, and before version 3.
static NAMES: [&str; 5] = ["bus", "rest", "node", "irq", "go"];

static TYPED_NAMES: [&str; 3] = ["bus", "rest", "node"];

/// What turns of a version begin with.
pub(crate) fn names_of(version: u8) -> &'static [&'static str] {
    if version < FIRST_BY_BYTES {
        TYPED_NAMES.as_slice()
    } else {
        NAMES.as_slice()
    }
}

/// The forms of turns of a version, in words.
pub(crate) fn turns_are(version: u8) -> &'static str {
    if version < FIRST_BY_BYTES {
        "turns are \"bus N\", N bits from 1; \"rest\"; and \"node K N\", N steps of node K"
    } else {
        "turns are \"go\", \"node K\", \"node K N\", \"irq K N\", \"bus N\" and \"rest\""
    }
}

/// What is known of a word that begins no turn; nothing where it is neither a step's nor a number.
pub(crate) fn known_of(version: u8, name: &str) -> &'static str {
    if begins_step(version, name) {
        "a step stands in the list steps of a node, and not among the turns: <{0}>"
    } else if number_in(name).is_some() {
        "a turn begins with bus, rest or node: \"node 1 3\", 3 steps of node 1"
    } else {
        ""
    }
}
