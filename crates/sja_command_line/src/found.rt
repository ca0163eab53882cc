//! The task of the subcommand that the parser found.

ghost use Rattle.std.specs.Prelude.{◌≡◌, IfOk, codes, map, option_map};
ghost use Rattle.clap.specs.Words.{all_of, first_of, found_of, rows_of, subcommand_rows_of};
ghost use Rattle.sja_command_line.specs.Values.{flag_in, single_in};
ghost use Rattle.sja_command_line.specs.Requests.{decode, encode, message, request_of};
ghost use Rattle.sja_command_line.specs.Commands.{arbitrate_in, filter_in, is_expected, question_in, text_question};
ghost use Rattle.sja_command_line.specs.Words.{request_by, request_in, other_by};

use super::expected_found::expected_task;
use super::files_found::plan_task;
use super::picture_found::picture_question;
use super::plan_question::PlanQuestion;
use super::registers_found::registers_question;
use super::sweep_found::sweep_question;
use super::task::Task;
use arrayvec::ArrayVec;
use clap::ArgMatches;
use std::alloc::{AllocError, Global};

/// The task of the subcommand that was found, with its arguments; nothing where its mode is none, where there aren't
/// one to eight messages, or where an option stands beside `--plan`.
///
/// Error: [`AllocError`] where memory was refused.
pub(crate) fn task_of<'a>(
    alloc: Global,
    matches: &ArgMatches<'a>,
) -> Result<Option<Task<'a>>, AllocError>
    ensures { IfOk result (λ task. option_map request_of task ≡ request_in (subcommand_rows_of matches.now)) }
{
    match matches.subcommand() {
        Some((name, arguments)) => task_by(alloc, name, arguments),
        None => Ok(None),
    }
}

/// The task of a subcommand of this name.
fn task_by<'a>(
    alloc: Global,
    name: &str,
    arguments: &ArgMatches<'a>,
) -> Result<Option<Task<'a>>, AllocError>
    ensures { IfOk result (λ task. option_map request_of task
        ≡ request_by name.now (rows_of (found_of arguments.now))) }
{
    match question_of(name, arguments) {
        Some(question) => plan_task(alloc, question, arguments),
        None => Ok(other_task(name, arguments)),
    }
}

/// The question that a subcommand of this name asks of plans in files; nothing where it asks none.
fn question_of<'a>(name: &str, arguments: &ArgMatches<'a>) -> Option<PlanQuestion>
    ensures { result ≡ question_in name.now (rows_of (found_of arguments.now)) }
{
    if is_expected(name, arguments) {
        return None;
    }
    match name {
        "check" => Some(PlanQuestion::Check {
            strict: flag_at(arguments, "strict"),
        }),
        "frames" => Some(PlanQuestion::Frames {
            bits: flag_at(arguments, "bits"),
            threads: flag_at(arguments, "threads"),
        }),
        "picture" => picture_question(arguments),
        "candump" => Some(PlanQuestion::Candump {
            errors: flag_at(arguments, "errors"),
            threads: flag_at(arguments, "threads"),
        }),
        "sweep" => sweep_question(arguments),
        "registers" => registers_question(arguments),
        of_run => text_question(of_run, flag_at(arguments, "threads")),
    }
}

/// Whether the words are of `run --expect`.
fn is_expected<'a>(name: &str, arguments: &ArgMatches<'a>) -> bool
    ensures { result ≡ is_expected name.now (rows_of (found_of arguments.now)) }
{
    name == "run" && text_at(arguments, "expect").is_some()
}

/// The question that a subcommand of this name asks that has `--threads` and no other flag.
fn text_question(name: &str, threads: bool) -> Option<PlanQuestion>
    ensures { result ≡ text_question name.now threads }
{
    match name {
        "run" => Some(PlanQuestion::Report { threads }),
        "wave" => Some(PlanQuestion::Wave { threads }),
        "trace" => Some(PlanQuestion::Trace { threads }),
        "plan" => Some(PlanQuestion::Plan),
        _ => None,
    }
}

/// The task of a subcommand of this name that takes no files; nothing where no such subcommand has this name.
fn other_task<'a>(name: &str, arguments: &ArgMatches<'a>) -> Option<Task<'a>>
    ensures { option_map request_of result ≡ other_by name.now (rows_of (found_of arguments.now)) }
{
    match name {
        "encode" => encode_task(arguments),
        "decode" => decode_task(arguments),
        "filter" => filter_task(arguments),
        "arbitrate" => arbitrate_task(arguments),
        "message" => message_task(arguments),
        "run" => expected_task(arguments),
        "live" => Some(Task::Live),
        _ => None,
    }
}

/// `encode MESSAGE`.
fn encode_task<'a>(arguments: &ArgMatches<'a>) -> Option<Task<'a>>
    ensures { option_map request_of result
        ≡ option_map encode (first_of (codes "MESSAGE") (rows_of (found_of arguments.now))) }
{
    Some(Task::Encode(text_at(arguments, "MESSAGE")?))
}

/// `decode LINE`.
fn decode_task<'a>(arguments: &ArgMatches<'a>) -> Option<Task<'a>>
    ensures { option_map request_of result
        ≡ option_map decode (first_of (codes "LINE") (rows_of (found_of arguments.now))) }
{
    Some(Task::Decode(text_at(arguments, "LINE")?))
}

/// `filter MODE ACR AMR MESSAGE`.
fn filter_task<'a>(arguments: &ArgMatches<'a>) -> Option<Task<'a>>
    ensures { let rows = rows_of (found_of arguments.now) in option_map request_of result
        ≡ filter_in (first_of (codes "MODE") rows) (first_of (codes "ACR") rows) (first_of (codes "AMR") rows)
        (first_of (codes "MESSAGE") rows) }
{
    let mode = text_at(arguments, "MODE")?;
    let acr = text_at(arguments, "ACR")?;
    let amr = text_at(arguments, "AMR")?;
    let message = text_at(arguments, "MESSAGE")?;
    let single = single_of(mode)?;
    Some(Task::Filter {
        single,
        acr,
        amr,
        message,
    })
}

/// `arbitrate MESSAGE..`.
fn arbitrate_task<'a>(arguments: &ArgMatches<'a>) -> Option<Task<'a>>
    ensures { option_map request_of result
        ≡ arbitrate_in (all_of (codes "MESSAGE") (rows_of (found_of arguments.now))) }
{
    let texts = arguments.get_strs("MESSAGE")?;
    let mut messages = ArrayVec::new();
    if texts.is_empty() || messages.try_extend_from_slice(texts).is_err() {
        return None;
    }
    Some(Task::Arbitrate(messages))
}

/// `message TEXT`.
fn message_task<'a>(arguments: &ArgMatches<'a>) -> Option<Task<'a>>
    ensures { option_map request_of result
        ≡ option_map message (first_of (codes "TEXT") (rows_of (found_of arguments.now))) }
{
    Some(Task::Message(text_at(arguments, "TEXT")?))
}

/// Whether a flag stands.
pub(crate) fn flag_at<'a>(arguments: &ArgMatches<'a>, id: &str) -> bool
    ensures { result ≡ flag_in (first_of id.now (rows_of (found_of arguments.now))) }
{
    match text_at(arguments, id) {
        Some(value) => value == "true",
        None => false,
    }
}

/// Whether this mode is that of a single filter; nothing where it is no mode.
fn single_of(mode: &str) -> Option<bool>
    ensures { result ≡ single_in mode.now }
{
    match mode {
        "single" => Some(true),
        "dual" => Some(false),
        _ => None,
    }
}

/// The text of an argument.
pub(crate) fn text_at<'a>(arguments: &ArgMatches<'a>, id: &str) -> Option<&'a str>
    ensures { option_map (λ text. text.now) result ≡ first_of id.now (rows_of (found_of arguments.now)) }
{
    arguments.get_str(id)
}

/// All texts of an argument.
pub(crate) fn texts_at<'m, 'a>(arguments: &'m ArgMatches<'a>, id: &str) -> Option<&'m [&'a str]>
    ensures { option_map (λ texts. map (λ text. text.now) texts.now) result
        ≡ all_of id.now (rows_of (found_of arguments.now)) }
{
    arguments.get_strs(id)
}
