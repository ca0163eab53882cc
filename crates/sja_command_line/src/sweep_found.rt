//! What the words of `sweep` ask for.

ghost use Rattle.std.specs.Prelude.{◌≡◌, ◌≤◌, IfSome, Some, codes, option_and_then, option_map};
ghost use Rattle.clap.specs.Words.{first_of, found_of, rows_of};
ghost use Rattle.sja_command_line.specs.Values.{flag_in, number_in, number_or, optional_in, second_of};
ghost use Rattle.sja_command_line.specs.declared.plan_question.PlanQuestion.TheVariants.{Sweep};
ghost use Rattle.sja_command_line.specs.Sweeping.{has_no_flag, has_no_kind, has_no_number, is_alone, struck_by};
ghost use Rattle.sja_command_line.specs.Sweeping.{sweep_in, words_in};

use super::found::{flag_at, text_at};
use super::plan_question::PlanQuestion;
use super::sweep_words::{GREATEST_NUMBER, LAST_NODE, MOST_JOBS, SweepWords};
use clap::ArgMatches;

/// `sweep`, or `sweep --plan K B`, beside which no option may stand.
pub(crate) fn sweep_question<'a>(arguments: &ArgMatches<'a>) -> Option<PlanQuestion>
    ensures { result ≡ sweep_in (rows_of (found_of arguments.now)) }
{
    match text_at(arguments, "plan") {
        Some(node) if is_alone(arguments) => struck_question(arguments, node),
        Some(_) => None,
        None => swept_question(arguments),
    }
}

/// `sweep --plan K B`, of which this is the node.
fn struck_question<'a>(arguments: &ArgMatches<'a>, node: &str) -> Option<PlanQuestion>
    ensures { result ≡ struck_by (number_in 0 9999999 node.now)
        (option_and_then (number_in 0 9999999) (second_of (codes "plan") (rows_of (found_of arguments.now)))) }
{
    match (
        number_in(node, 0, GREATEST_NUMBER),
        second_number(arguments, "plan"),
    ) {
        (Some(node), Some(bit)) => Some(PlanQuestion::StruckPlan { node, bit }),
        _ => None,
    }
}

/// `sweep` without `--plan`.
fn swept_question<'a>(arguments: &ArgMatches<'a>) -> Option<PlanQuestion>
    ensures { result ≡ option_map Sweep (words_in (rows_of (found_of arguments.now))) }
{
    match sweep_words(arguments) {
        Some(words) => Some(PlanQuestion::Sweep(words)),
        None => None,
    }
}

/// What `sweep` without `--plan` asks for; nothing where an option is no number in its range.
fn sweep_words<'a>(arguments: &ArgMatches<'a>) -> Option<SweepWords>
    ensures { result ≡ words_in (rows_of (found_of arguments.now)) }
{
    match (
        node_at(arguments),
        number_at(arguments, "from", 0, 0, GREATEST_NUMBER),
        number_at(arguments, "to", u32::MAX, 0, GREATEST_NUMBER),
        optional_at(arguments, "pairs", GREATEST_NUMBER),
        number_at(arguments, "jobs", 1, 1, MOST_JOBS),
    ) {
        (Some(node), Some(first), Some(last), Some(pairs), Some(jobs)) => Some(SweepWords {
            node,
            first,
            last,
            pairs,
            jobs,
            changed: flag_at(arguments, "changed"),
            twice: flag_at(arguments, "twice"),
            lost: flag_at(arguments, "lost"),
            stuck: flag_at(arguments, "stuck"),
            rows: flag_at(arguments, "rows"),
            meant: flag_at(arguments, "yes"),
        }),
        _ => None,
    }
}

/// Whether no option stands beside `--plan`.
fn is_alone<'a>(arguments: &ArgMatches<'a>) -> bool
    ensures { result ≡ is_alone (rows_of (found_of arguments.now)) }
{
    has_no_number(arguments) && has_no_flag(arguments)
}

/// Whether none stands that takes a number.
fn has_no_number<'a>(arguments: &ArgMatches<'a>) -> bool
    ensures { result ≡ has_no_number (rows_of (found_of arguments.now)) }
{
    match (
        text_at(arguments, "only"),
        text_at(arguments, "from"),
        text_at(arguments, "to"),
        text_at(arguments, "pairs"),
        text_at(arguments, "jobs"),
    ) {
        (None, None, None, None, None) => true,
        _ => false,
    }
}

/// Whether no flag stands.
fn has_no_flag<'a>(arguments: &ArgMatches<'a>) -> bool
    ensures { result ≡ has_no_flag (rows_of (found_of arguments.now)) }
{
    has_no_kind(arguments) && !flag_at(arguments, "rows") && !flag_at(arguments, "yes")
}

/// Whether none stands for a kind of outcome.
fn has_no_kind<'a>(arguments: &ArgMatches<'a>) -> bool
    ensures { result ≡ has_no_kind (rows_of (found_of arguments.now)) }
{
    !flag_at(arguments, "changed")
        && !flag_at(arguments, "twice")
        && !flag_at(arguments, "lost")
        && !flag_at(arguments, "stuck")
}

/// The node of `--only`: none where it doesn't stand, nothing where it is no number from 0 to 7.
fn node_at<'a>(arguments: &ArgMatches<'a>) -> Option<Option<u8>>
    ensures { result ≡ optional_in 7 (first_of (codes "only") (rows_of (found_of arguments.now))) }
{
    match optional_at(arguments, "only", LAST_NODE) {
        Some(Some(node)) => Some(Some(node as u8)),
        Some(None) => Some(None),
        None => None,
    }
}

/// The number of this argument, as that of `--pairs`, how many bits apart two strikes are at most: none where it
/// doesn't stand, nothing where it is no number up to the most one.
pub(crate) fn optional_at<'a>(
    arguments: &ArgMatches<'a>,
    id: &str,
    most: u32,
) -> Option<Option<u32>>
    ensures value { result ≡ optional_in most (first_of id.now (rows_of (found_of arguments.now))) }
    ensures bound { IfSome result (λ found. IfSome found (λ number. number ≤ most)) }
{
    match text_at(arguments, id) {
        Some(text) => optional_of(number_in(text, 0, most)),
        None => Some(None),
    }
}

/// That a number is there; nothing where it is none.
fn optional_of(number: Option<u32>) -> Option<Option<u32>>
    ensures { result ≡ option_map Some number }
{
    match number {
        Some(number) => Some(Some(number)),
        None => None,
    }
}

/// The number of this argument: `otherwise` where it doesn't stand, nothing where it is no number from the least to the
/// most one.
pub(crate) fn number_at<'a>(
    arguments: &ArgMatches<'a>,
    id: &str,
    otherwise: u32,
    least: u32,
    most: u32,
) -> Option<u32>
    ensures { result ≡ number_or otherwise least most (first_of id.now (rows_of (found_of arguments.now))) }
{
    match text_at(arguments, id) {
        Some(text) => number_in(text, least, most),
        None => Some(otherwise),
    }
}

/// The text as a number from the least to the most one.
fn number_in(text: &str, least: u32, most: u32) -> Option<u32>
    ensures value { result ≡ number_in least most text.now }
    ensures bound { IfSome result (λ number. number ≤ most) }
{
    match text.parse::<u64>() {
        Ok(number) if u64::from(least) <= number && number <= u64::from(most) => {
            Some(number as u32)
        }
        Ok(_) => None,
        Err(_) => None,
    }
}

/// The second text of an argument as a number up to 9,999,999.
fn second_number<'a>(arguments: &ArgMatches<'a>, id: &str) -> Option<u32>
    ensures { result ≡ option_and_then (number_in 0 9999999)
        (second_of id.now (rows_of (found_of arguments.now))) }
{
    match second_at(arguments, id) {
        Some(text) => number_in(text, 0, GREATEST_NUMBER),
        None => None,
    }
}

/// The second text of an argument.
fn second_at<'a>(arguments: &ArgMatches<'a>, id: &str) -> Option<&'a str>
    ensures { option_map (λ text. text.now) result ≡ second_of id.now (rows_of (found_of arguments.now)) }
{
    let texts = arguments.get_strs(id)?;
    if texts.len() < 2 {
        return None;
    }
    Some(texts[1])
}
