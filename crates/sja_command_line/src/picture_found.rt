//! What the words of `picture` ask for.

ghost use Rattle.std.specs.Prelude.{◌≡◌};
ghost use Rattle.clap.specs.Words.{found_of, rows_of};
ghost use Rattle.sja_command_line.specs.Commands.{picture_in};

use super::found::flag_at;
use super::plan_question::PlanQuestion;
use super::sweep_found::{number_at, optional_at};
use super::sweep_words::GREATEST_NUMBER;
use clap::ArgMatches;

/// `picture FROM TO`, with its flags; nothing where one of them is no number up to 9,999,999.
pub(crate) fn picture_question<'a>(arguments: &ArgMatches<'a>) -> Option<PlanQuestion>
    ensures { result ≡ picture_in (rows_of (found_of arguments.now)) }
{
    match (
        number_at(arguments, "FROM", 0, 0, GREATEST_NUMBER),
        optional_at(arguments, "TO", GREATEST_NUMBER),
    ) {
        (Some(first), Some(last)) => Some(PlanQuestion::Picture {
            first,
            last,
            svg: flag_at(arguments, "svg"),
            threads: flag_at(arguments, "threads"),
            meant: flag_at(arguments, "yes"),
        }),
        _ => None,
    }
}
