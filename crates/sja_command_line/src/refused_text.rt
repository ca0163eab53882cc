//! What is said of words that the parser refuses, or took and that give no task all the same, where it says less than
//! is wanted: with the usage of the command.

use super::command::{command_of, sja_command};
use super::command_row::CommandRow;
use super::commands::{FILTER, RUN, SWEEP, commands};
use clap::error::{Error, ErrorKind};
use clap::{ArgMatches, Command};
use std::alloc::{AllocError, Global};

/// What the parser's text of an error begins with.
const BEFORE: &str = "error: ";

/// What it ends with.
const BEHIND: &str = "\n\nFor more information, try '--help'.\n";

/// What is said of an option beside `--plan`.
const PLAN_SAID: &str = "'--plan <K> <B>' can't be used with another option";

/// What is said of several files beside `--expect`.
const EXPECT_SAID: &str = "'--expect <FILE>' can't be used with several files";

/// What is said of a MODE that is none.
const MODE_SAID: &str = "MODE is neither 'single' nor 'dual'";

/// What the parser would say of words that it took, and that give no task all the same, under the program's name
/// `program`.
pub(crate) fn refused_text<'a>(
    alloc: Global,
    program: &str,
    matches: &ArgMatches<'a>,
) -> Result<String, AllocError> {
    match matches.subcommand_name() {
        Some("sweep") => text_of(
            alloc,
            &SWEEP,
            program,
            ErrorKind::ArgumentConflict,
            PLAN_SAID,
        ),
        Some("run") => text_of(
            alloc,
            &RUN,
            program,
            ErrorKind::ArgumentConflict,
            EXPECT_SAID,
        ),
        _ => text_of(alloc, &FILTER, program, ErrorKind::InvalidValue, MODE_SAID),
    }
}

/// The text of such an error of the command of this row, with its usage, under the program's name `program`.
fn text_of(
    alloc: Global,
    row: &CommandRow<'static>,
    program: &str,
    kind: ErrorKind,
    said: &str,
) -> Result<String, AllocError> {
    let name = row.name;
    let shown = format!(in alloc; "{program} {name}")?;
    match command_of(alloc, row) {
        Ok(command) => said_text(alloc, command, shown.as_str(), kind, said),
        Err(error) => Err(error),
    }
}

/// The text of such an error of this command.
fn said_text<'a>(
    alloc: Global,
    command: Command<'a>,
    shown: &str,
    kind: ErrorKind,
    said: &str,
) -> Result<String, AllocError> {
    match error_of(command, shown, kind, said) {
        Ok(error) => error.to_string(alloc),
        Err(error) => Err(error),
    }
}

/// The error, with the usage of the command, which goes by the name `shown` there.
fn error_of<'a>(
    command: Command<'a>,
    shown: &str,
    kind: ErrorKind,
    said: &str,
) -> Result<Error, AllocError> {
    match command.bin_name(shown) {
        Ok(mut command) => command.error(kind, said),
        Err(error) => Err(error),
    }
}

/// What the parser said of a value of the command `name`, under the program's name `program`, with the usage of that
/// command before its last line: where a value is refused it has none itself.
pub(crate) fn refused_value(
    alloc: Global,
    program: &str,
    name: &str,
    error: &Error,
) -> Result<String, AllocError> {
    let text = error.to_string(alloc)?;
    match row_named(name) {
        Some(row) => text_of(alloc, row, program, error.kind(), said_in(text.as_str())),
        None => Ok(text),
    }
}

/// What is said in the parser's text of an error, without what it begins and ends with.
fn said_in(text: &str) -> &str {
    let said = text.strip_prefix(BEFORE).unwrap_or(text);
    said.strip_suffix(BEHIND).unwrap_or(said)
}

/// The row of the command of this name; nothing where there is none.
fn row_named(name: &str) -> Option<&'static CommandRow<'static>> {
    for row in commands() {
        if row.name == name {
            return Some(row);
        }
    }
    None
}

/// The help of `live`, under the program's name `program`.
pub(crate) fn live_help(alloc: Global, program: &str) -> Result<String, AllocError> {
    match sja_command(alloc)?.try_get_matches_from(&[program, "live", "--help"]) {
        Ok(_) => Ok(String::new(alloc)),
        Err(error) => error.to_string(alloc),
    }
}
