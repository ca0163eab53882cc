//! What the words of `registers` ask for.

ghost use Rattle.std.specs.Prelude.{◌≡◌};
ghost use Rattle.clap.specs.Words.{found_of, rows_of};
ghost use Rattle.sja_command_line.specs.Commands.{registers_in};

use super::plan_question::PlanQuestion;
use super::sweep_found::optional_at;
use super::sweep_words::GREATEST_NUMBER;
use clap::ArgMatches;

/// `registers B`; nothing where that is no number up to 9,999,999.
pub(crate) fn registers_question<'a>(arguments: &ArgMatches<'a>) -> Option<PlanQuestion>
    ensures { result ≡ registers_in (rows_of (found_of arguments.now)) }
{
    match optional_at(arguments, "B", GREATEST_NUMBER) {
        Some(bit) => Some(PlanQuestion::Registers { bit }),
        None => None,
    }
}
