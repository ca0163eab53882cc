//! [`parse`]: the words of a command line as a task.

ghost use Rattle.std.specs.Prelude.{◌≡◌, map, IfOk, IfErr, Some};
ghost use Rattle.clap.specs.Words.{app_of, kind_of, subcommand_rows_of};
ghost use Rattle.clap.specs.declared.error.kind.ErrorKind.TheVariants as kind;
ghost use Rattle.sja_command_line.specs.Requests.{Request, request_of};
ghost use Rattle.sja_command_line.specs.Words.{ParsesAs, request_in};
ghost use Rattle.sja_command_line.specs.CommandLine.{sja_app};

use super::command::sja_command;
use super::found::task_of;
use super::refused_text::{live_help, refused_text, refused_value};
use super::task::Task;
use super::words_fault::WordsFault;
use clap::error::{Error, ErrorKind};
use clap::{ArgMatches, Command};
use std::alloc::{AllocError, Global};
use std::convert::AsStr;

/// The task that these words ask for (this project's own rule). The first word is the program's name, whatever it is.
///
/// Errors: [`WordsFault::Unparsed`] where the words don't parse as a task or ask for help or the version, with the
/// parser's text for the user; [`WordsFault::OutOfMemory`].
pub fn parse<'a, S: AsStr>(alloc: Global, words: &'a [S]) -> Result<Task<'a>, WordsFault>
    ensures ok { IfOk result (λ task. ParsesAs (map S.text words.entry.now) (request_of task)) }
    ensures refused { (r : Request) → ParsesAs (map S.text words.entry.now) r
        → IfErr result (λ fault. fault ≡ WordsFault.OutOfMemory) }
{
    match sja_command(alloc) {
        Ok(command) => parse_by(alloc, command, words),
        Err(_) => Err(WordsFault::OutOfMemory),
    }
}

/// The task that these words ask for, by the parser's command.
fn parse_by<'a, S: AsStr>(
    alloc: Global,
    command: Command<'a>,
    words: &'a [S],
) -> Result<Task<'a>, WordsFault>
    requires { app_of command ≡ sja_app }
    ensures ok { IfOk result (λ task. ParsesAs (map S.text words.entry.now) (request_of task)) }
    ensures refused { (r : Request) → ParsesAs (map S.text words.entry.now) r
        → IfErr result (λ fault. fault ≡ WordsFault.OutOfMemory) }
{
    match command.try_get_matches_from(words) {
        Ok(matches) => task_in(alloc, shown_name(words), &matches),
        Err(error) => Err(fault_in(alloc, words, &error)),
    }
}

/// The task of words that the parser took, under the program's name `program`.
fn task_in<'a>(
    alloc: Global,
    program: &str,
    matches: &ArgMatches<'a>,
) -> Result<Task<'a>, WordsFault>
    ensures ok { IfOk result (λ task. request_in (subcommand_rows_of matches.now) ≡ Some (request_of task)) }
    ensures refused { (r : Request) → request_in (subcommand_rows_of matches.now) ≡ Some r
        → IfErr result (λ fault. fault ≡ WordsFault.OutOfMemory) }
{
    match task_of(alloc, matches)? {
        Some(task) => Ok(task),
        None => Err(unparsed(refused_text(alloc, program, matches))),
    }
}

/// Why the parser refused words: with its own text, where memory wasn't refused, and behind what it says of a value
/// the usage of the command.
fn fault_in<S: AsStr>(alloc: Global, words: &[S], error: &Error) -> WordsFault
    ensures { kind_of error.now ≡ kind.OutOfMemory → result ≡ WordsFault.OutOfMemory }
{
    match (error.kind(), words.get(1)) {
        (ErrorKind::OutOfMemory, _) => WordsFault::OutOfMemory,
        (ErrorKind::UnknownArgument, Some(command)) if asks_live(command.as_str(), words.get(2)) =>
            { unparsed(live_help(alloc, shown_name(words))) }
        (ErrorKind::InvalidValue | ErrorKind::ValueValidation, Some(command)) => {
            unparsed(refused_value(alloc, shown_name(words), command.as_str(), error))
        }
        _ => unparsed(error.to_string(alloc)),
    }
}

/// Whether these are the words `live help`.
fn asks_live<S: AsStr>(command: &str, word: Option<&S>) -> bool {
    match word {
        Some(word) => command == "live" && word.as_str() == "help",
        None => false,
    }
}

/// That words give no task, with this text, where memory wasn't refused.
fn unparsed(text: Result<String, AllocError>) -> WordsFault {
    match text {
        Ok(text) => WordsFault::Unparsed(text),
        Err(_) => WordsFault::OutOfMemory,
    }
}

/// The program's name as the parser shows it: what stands behind the last slash of the first word, or `sja` where
/// nothing does.
fn shown_name<S: AsStr>(words: &[S]) -> &str {
    let Some(first) = words.first() else {
        return "sja";
    };
    let name = behind_slash(first.as_str());
    if name.is_empty() { "sja" } else { name }
}

/// What stands behind the last slash of a word.
fn behind_slash(word: &str) -> &str {
    match word.rsplit_once('/') {
        Some((_, behind)) => behind,
        None => word,
    }
}
