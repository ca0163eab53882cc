//! Why a line asks for nothing.

use std::fmt;

/// Why a line asks a session for nothing (this project's own rule): the first mistake in it. It shows as the word that
/// stands behind `no`.
#[derive(Clone, Copy, Debug, PartialEq, Eq)]
pub enum LineFault {
    /// It is no text: its bytes are no UTF-8.
    Text,
    /// Its words are those of no command: the first one is no command's, or too few or too many stand behind it.
    Command,
    /// A word isn't the number of a node that is there.
    Node,
    /// The words behind the node are no step of this version.
    Step,
    /// A word isn't an address, as plans of the session's version spell it.
    Address,
    /// A word isn't a value for that address, as they spell it.
    Byte,
    /// The words behind the node are no place of a frame.
    Place,
    /// A word isn't a number of one to seven digits.
    Number,
}

impl fmt::Display for LineFault {
    ghost use Rattle.std.specs.Prelude.{Some};
    ghost use Rattle.sja_live.specs.AnswerTexts.{fault_word};

    ghost output = { λ fault. Some (fault_word fault) };

    fn fmt<W: fmt::Write>(&self, f: &mut fmt::Formatter<W>) -> fmt::Result {
        f.write_str(match self {
            LineFault::Text => "TEXT",
            LineFault::Command => "COMMAND",
            LineFault::Node => "NODE",
            LineFault::Step => "STEP",
            LineFault::Address => "ADDRESS",
            LineFault::Byte => "BYTE",
            LineFault::Place => "PLACE",
            LineFault::Number => "NUMBER",
        })
    }
}
