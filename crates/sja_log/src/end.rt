//! [`End`]: why a run ended.

use std::fmt;

/// Why a run ended (this project's own rule). It shows as its word in a report.
#[derive(Clone, Copy, Debug, PartialEq, Eq)]
pub enum End {
    /// All turns of the plan were done: `turns`.
    Turns,
    /// The drivers had ended, and all controllers were at rest: `rest`.
    Rest,
    /// A bit was due, and none of the plan's was left: `bits`.
    Bits,
}

impl fmt::Display for End {
    ghost use Rattle.std.specs.Prelude.{Some};
    ghost use Rattle.sja_log.specs.EndWord.{end_word};

    ghost output = { λ end. Some (end_word end) };

    fn fmt<W: fmt::Write>(&self, f: &mut fmt::Formatter<W>) -> fmt::Result {
        f.write_str(match self {
            End::Turns => "turns",
            End::Rest => "rest",
            End::Bits => "bits",
        })
    }
}
