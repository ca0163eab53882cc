//! What of a session is used up.

use std::fmt;

/// What of a session is used up (this project's own rule), so that a command isn't done. It shows as the word that
/// stands behind `full`.
#[derive(Clone, Copy, Debug, PartialEq, Eq)]
pub enum Exhausted {
    /// The steps of the node.
    Steps,
    /// The turns.
    Turns,
    /// The strikes.
    Strikes,
    /// The bytes of a document: the plan so far is longer than one may be.
    Document,
}

impl fmt::Display for Exhausted {
    ghost use Rattle.std.specs.Prelude.{Some};
    ghost use Rattle.sja_live.specs.AnswerTexts.{used_word};

    ghost output = { λ used. Some (used_word used) };

    fn fmt<W: fmt::Write>(&self, f: &mut fmt::Formatter<W>) -> fmt::Result {
        f.write_str(match self {
            Exhausted::Steps => "STEPS",
            Exhausted::Turns => "TURNS",
            Exhausted::Strikes => "STRIKES",
            Exhausted::Document => "PLAN",
        })
    }
}
