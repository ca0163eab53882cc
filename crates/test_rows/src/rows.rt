//! [`Rows`]: what a program answers to rows, and the input with these answers.

use super::given_lines::GivenLines;
use std::alloc::Global;
use std::io;
use std::process::ExitCode;

/// What a program answers to rows.
pub trait Rows {
    /// What a row answers, as the lines above it give it, without the end of its last line.
    ///
    /// Errors: memory was refused.
    fn answered(&self, alloc: Global, given: &GivenLines, row: &str) -> io::Result<String>;
}

/// Prints each line of the input, and behind a row this text and what the row answers.
///
/// Answers the exit status: 0 for done, 1 where memory was refused or a read or a write failed.
pub fn answer_rows<R: Rows>(rt: &HostRuntime, behind: &str, rows: &R) -> ExitCode {
    ExitCode::from(if rows_are_told(rt, behind, rows).is_ok() {
        0
    } else {
        1
    })
}

/// Prints each line of the input, and behind a row the text and what the row answers.
fn rows_are_told<R: Rows>(rt: &HostRuntime, behind: &str, rows: &R) -> io::Result<()> {
    let mut given = GivenLines::nothing(rt.alloc());
    for line in rt.lines(rt.alloc()) {
        let line = line?;
        if given.takes(line.as_str())? {
            println!(rt; "{line}")?;
        } else {
            let text = rows.answered(rt.alloc(), &given, line.as_str())?;
            println!(rt; "{line}{behind}{text}")?;
        }
    }
    Ok(())
}
