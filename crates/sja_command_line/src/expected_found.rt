//! What the words of `run --expect` ask for.

ghost use Rattle.std.specs.Prelude.{◌≡◌, codes, map, option_map, option_and_then};
ghost use Rattle.clap.specs.Words.{found_of, rows_of};
ghost use Rattle.sja_command_line.specs.Requests.{request_of};
ghost use Rattle.sja_command_line.specs.Commands.{expected_in, plan_named};

use super::expected_words::ExpectedWords;
use super::found::{flag_at, text_at, texts_at};
use super::task::Task;
use clap::ArgMatches;

/// `run --expect FILE`, with one file with a plan at most.
pub(crate) fn expected_task<'a>(arguments: &ArgMatches<'a>) -> Option<Task<'a>>
    ensures { option_map request_of result ≡ expected_in (rows_of (found_of arguments.now)) }
{
    match (
        text_at(arguments, "expect"),
        plan_named(texts_at(arguments, "FILE")),
    ) {
        (Some(report), Some(plan)) => Some(Task::Expected(ExpectedWords {
            threads: flag_at(arguments, "threads"),
            plan,
            report,
        })),
        _ => None,
    }
}

/// The name of the one file with a plan, or of the input where none is named; nothing where there are several.
fn plan_named<'a>(names: Option<&[&'a str]>) -> Option<&'a str>
    ensures { option_map (λ name. name.now) result
        ≡ plan_named (option_map (λ names. map (λ name. name.now) names.now) names.entry) }
{
    match names {
        None => Some("-"),
        Some(names) if names.len() == 1 => Some(names[0]),
        Some(_) => None,
    }
}
