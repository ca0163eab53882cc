//! [`FileOutcome`]: what came of a plan that stands in a file.

use text_codec::CommandRefusal;

/// What came of a plan that stands in a file (this project's own rule).
#[derive(Debug, Drop)]
pub enum FileOutcome {
    /// The text that answers what was asked.
    Printed(Vec<u8>),
    /// What `check --strict` says that a run left out.
    Told(Vec<u8>),
    /// What `check` says of a mistake.
    Mistaken(Vec<u8>),
    /// There is no answer.
    Refused(CommandRefusal),
    /// The file can't be read.
    Unreadable,
}
