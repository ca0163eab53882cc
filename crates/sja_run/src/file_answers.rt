//! What comes of the plans that were read under names.

ghost use Rattle.std.specs.Prelude.{◌≡◌, ℕ, List, IfOk, IfErr, length};
ghost use Rattle.sja_command_line.specs.declared.plan_question.PlanQuestion.TheVariants.{Check};
ghost use Rattle.sja_program.specs.Check.{IsHinted};
ghost use Rattle.sja_program.specs.PlanTexts.{IsTextIn, RefusesTextIn};
ghost use Rattle.sja_run.specs.Files.{Answers, IsAnswer, IsCheck, IsUnanswered};
ghost use Rattle.std.specs.List.{AllZip};
ghost use Rattle.sja_program.specs.Denials.{DeniesOf};
ghost use Rattle.sja_run.specs.Inside.FileReads.{ComeOf, ComesOf, Settles};
ghost use Rattle.sja_program.specs.RunRefusals.{RefusesRunOf};
ghost use Rattle.sja_program.specs.RunText.{IsTextOfRun};

use super::file_outcome::FileOutcome;
use super::thread_text::written_threads_of;
use super::threaded_sweeps::swept_in;
use sja_command_line::PlanQuestion;
use sja_plan::Plan;
use sja_program::{
    PlanCheck, RunText, Unanswered, picture_or_drawing, plan_in, registers_in, said_of, spelled,
    struck_in, written_of,
};
use std::alloc::{AllocError, Global};
use std::sync::Wait;
use std::thread::{Threads, for_each_mut};
use text_codec::CommandRefusal;

/// What comes of each, in order: with more jobs than one in as many threads, where they can be made.
///
/// Error: [`AllocError`] where memory was refused.
pub(crate) fn answers_to<T: Threads + Wait + Sync>(
    rt: &T,
    alloc: Global,
    question: PlanQuestion,
    jobs: usize,
    reads: Vec<Result<Vec<u8>, FileOutcome>>,
) -> Result<Vec<FileOutcome>, AllocError>
    ensures come { IfOk result (λ outcomes. ComeOf (λ v. v.items) question reads.items outcomes.items) }
    ensures len { IfOk result (λ outcomes. length outcomes.items ≡ length reads.items) }
{
    let mut outcomes = Vec::with_capacity(alloc, reads.len())?;
    let mut reads = reads;
    settle(rt, alloc, question, jobs, reads.as_mut_slice());
    for read in reads {
        outcomes.push_reserved(outcome_of(rt, alloc, question, read));
    }
    Ok(outcomes)
}

/// Puts what comes of each in its place, if there are more jobs than one.
fn settle<T: Threads + Wait + Sync>(
    rt: &T,
    alloc: Global,
    question: PlanQuestion,
    jobs: usize,
    reads: &mut [Result<Vec<u8>, FileOutcome>],
)
    ensures { AllZip (Settles (λ v. v.items) question) reads.old reads.new }
{
    if jobs < 2 {
        return;
    }
    let one = |_: usize, read: &mut Result<Vec<u8>, FileOutcome>|
        ensures { Settles (λ v. v.items) question read.entry.now read.exit.now }
    { settle_one(rt, alloc, question, read) };
    for_each_mut(rt, reads, jobs, &one);
}

/// Puts what comes of what was read in its place.
fn settle_one<T: Threads + Wait + Sync>(
    rt: &T,
    alloc: Global,
    question: PlanQuestion,
    read: &mut Result<Vec<u8>, FileOutcome>,
)
    ensures { Settles (λ v. v.items) question read.old read.new }
{
    if let Ok(bytes) = read {
        let outcome = answer_of(rt, alloc, question, bytes.as_slice());
        *read = Err(outcome);
    }
}

/// What comes of what was read under a name.
fn outcome_of<T: Threads + Wait + Sync>(
    rt: &T,
    alloc: Global,
    question: PlanQuestion,
    read: Result<Vec<u8>, FileOutcome>,
) -> FileOutcome
    ensures { ComesOf (λ v. v.items) question read result }
{
    match read {
        Ok(bytes) => answer_of(rt, alloc, question, bytes.as_slice()),
        Err(outcome) => outcome,
    }
}

/// What comes of the plan that these bytes are.
fn answer_of<T: Threads + Wait + Sync>(
    rt: &T,
    alloc: Global,
    question: PlanQuestion,
    bytes: &[u8],
) -> FileOutcome
    ensures { Answers question bytes.now result }
{
    match question {
        PlanQuestion::Check { strict } => check_outcome(alloc, strict, bytes),
        other => outcome_in(other, printed_of(rt, alloc, other, bytes)),
    }
}

/// What is printed or refused of a plan, as what comes of it.
fn outcome_in(question: PlanQuestion, printed: Result<Vec<u8>, Unanswered>) -> FileOutcome
    ensures { (bytes : List ℕ) → IfOk printed (λ text. IsAnswer question bytes text.items)
        → IfErr printed (DeniesOf (IsUnanswered question bytes) bytes) → Answers question bytes result }
{
    match printed {
        Ok(text) => FileOutcome::Printed(text),
        Err(Unanswered::Refused(refusal)) => FileOutcome::Refused(refusal),
        Err(Unanswered::Mistaken(text)) => FileOutcome::Mistaken(text),
    }
}

/// The text that answers a question but `check` of the plan that these bytes are.
fn printed_of<T: Threads + Wait + Sync>(
    rt: &T,
    alloc: Global,
    question: PlanQuestion,
    bytes: &[u8],
) -> Result<Vec<u8>, Unanswered>
    requires { ¬ IsCheck question }
    ensures ok { IfOk result (λ text. IsAnswer question bytes.now text.items) }
    ensures err { IfErr result (DeniesOf (IsUnanswered question bytes.now) bytes.now) }
{
    match question {
        PlanQuestion::Report { threads } => written_in(rt, alloc, threads, RunText::Report, bytes),
        PlanQuestion::Wave { threads } => written_in(rt, alloc, threads, RunText::Wave, bytes),
        PlanQuestion::Trace { threads } => written_in(rt, alloc, threads, RunText::Trace, bytes),
        PlanQuestion::Frames { bits, threads } => {
            written_in(rt, alloc, threads, RunText::Frames(bits), bytes)
        }
        PlanQuestion::Picture {
            first,
            last,
            svg,
            threads,
            meant,
        } => {
            let what = picture_or_drawing(first, last, svg, meant);
            written_in(rt, alloc, threads, what, bytes)
        }
        PlanQuestion::Candump { errors, threads } => {
            written_in(rt, alloc, threads, RunText::Candump(errors), bytes)
        }
        PlanQuestion::Sweep(words) => swept_in(rt, alloc, words, bytes),
        PlanQuestion::StruckPlan { node, bit } => struck_in(alloc, node, bit, bytes),
        PlanQuestion::Registers { bit } => registers_in(alloc, bit, bytes),
        PlanQuestion::Plan => spelled(alloc, bytes),
        PlanQuestion::Check { .. } => unreachable!(),
    }
}

/// What `check` says of the plan that these bytes are.
fn check_outcome(alloc: Global, strict: bool, bytes: &[u8]) -> FileOutcome
    ensures { Answers (Check strict) bytes.now result }
{
    match said_of(alloc, bytes) {
        Ok(PlanCheck::Hints(text)) => hints_outcome(strict, text),
        Ok(PlanCheck::Mistake(text)) => FileOutcome::Mistaken(text),
        Err(_) => FileOutcome::Refused(CommandRefusal::OutOfMemory),
    }
}

/// What these hints come to.
fn hints_outcome(strict: bool, text: Vec<u8>) -> FileOutcome
    ensures { (bytes : List ℕ) → IsHinted bytes text.items → Answers (Check strict) bytes result }
{
    if strict && !text.is_empty() {
        FileOutcome::Told(text)
    } else {
        FileOutcome::Printed(text)
    }
}

/// This text of a run of the plan that these bytes are: with each driver in a thread of its own, or with all in one.
#[tactic(auto, using(sja_program::proofs::Denied::of_bytes))]
fn written_in<T: Threads + Wait + Sync>(
    rt: &T,
    alloc: Global,
    threads: bool,
    what: RunText,
    bytes: &[u8],
) -> Result<Vec<u8>, Unanswered>
    ensures ok { IfOk result (λ text. IsTextIn threads what bytes.now text.items) }
    ensures err { IfErr result (DeniesOf (RefusesTextIn threads what bytes.now) bytes.now) }
{
    let plan = plan_in(alloc, bytes)?;
    let text = written_by(rt, alloc, threads, what, &plan)?;
    Ok(text)
}

/// This text of a run of this plan.
pub(crate) fn written_by<T: Threads + Wait + Sync>(
    rt: &T,
    alloc: Global,
    threads: bool,
    what: RunText,
    plan: &Plan,
) -> Result<Vec<u8>, CommandRefusal>
    ensures ok { IfOk result (λ text. IsTextOfRun threads what plan.now text.items) }
    ensures err { IfErr result (RefusesRunOf threads what plan.now) }
{
    if threads {
        written_threads_of(rt, alloc, what, plan)
    } else {
        written_of(alloc, what, plan)
    }
}
