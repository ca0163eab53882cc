//! What the words ask for that take plans in files.

ghost use Rattle.std.specs.Prelude.{◌≡◌, IfOk, Some, map, option_map};
ghost use Rattle.clap.specs.Words.{found_of, rows_of};
ghost use Rattle.sja_command_line.specs.Requests.{files, request_about, request_of};
ghost use Rattle.sja_command_line.specs.Commands.{plan_in};

use super::file_words::FileWords;
use super::found::texts_at;
use super::plan_question::PlanQuestion;
use super::sweep_found::number_at;
use super::sweep_words::MOST_JOBS;
use super::task::Task;
use clap::ArgMatches;
use std::alloc::{AllocError, Global};

/// The question of the plans in the files that are named, in order; of the plan on the input where none is named.
/// Nothing where `--jobs` is no number from 1 to 64.
///
/// Error: [`AllocError`] where memory was refused.
pub(crate) fn plan_task<'a>(
    alloc: Global,
    question: PlanQuestion,
    arguments: &ArgMatches<'a>,
) -> Result<Option<Task<'a>>, AllocError>
    ensures { IfOk result (λ task. option_map request_of task
        ≡ plan_in question (rows_of (found_of arguments.now))) }
{
    match (
        texts_at(arguments, "FILE"),
        number_at(arguments, "jobs", 1, 1, MOST_JOBS),
    ) {
        (Some(names), Some(jobs)) => files_task(alloc, question, jobs, names),
        (Some(_), None) => Ok(None),
        (None, _) => Ok(Some(task_about(question))),
    }
}

/// The question of the plans in these files, so many at one time.
fn files_task<'a>(
    alloc: Global,
    question: PlanQuestion,
    jobs: u32,
    names: &[&'a str],
) -> Result<Option<Task<'a>>, AllocError>
    ensures { IfOk result (λ task. option_map request_of task
        ≡ Some (files question jobs (map (λ name. name.now) names.now))) }
{
    match Vec::from_slice(alloc, names) {
        Ok(names) => Ok(Some(Task::Files(FileWords {
            question,
            jobs,
            names,
        }))),
        Err(error) => Err(error),
    }
}

/// The question of the plan on the input.
fn task_about<'a>(question: PlanQuestion) -> Task<'a>
    ensures { request_of result ≡ request_about question }
{
    match question {
        PlanQuestion::Report { threads } => Task::Run { threads },
        PlanQuestion::Check { strict } => Task::Check { strict },
        PlanQuestion::Wave { threads } => Task::Wave { threads },
        PlanQuestion::Trace { threads } => Task::Trace { threads },
        PlanQuestion::Frames { bits, threads } => Task::Frames { bits, threads },
        PlanQuestion::Picture {
            first,
            last,
            svg,
            threads,
            meant,
        } => Task::Picture {
            first,
            last,
            svg,
            threads,
            meant,
        },
        PlanQuestion::Candump { errors, threads } => Task::Candump { errors, threads },
        PlanQuestion::Sweep(words) => Task::Sweep(words),
        PlanQuestion::StruckPlan { node, bit } => Task::StruckPlan { node, bit },
        PlanQuestion::Registers { bit } => Task::Registers { bit },
        PlanQuestion::Plan => Task::Plan,
    }
}
