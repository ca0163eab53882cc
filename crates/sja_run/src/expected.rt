//! A plan whose report is known: whether a run of it has that report.

ghost use Rattle.std.specs.Prelude.{◌≡◌, ◌⊎◌, IfOk, IfErr, false, option_map, true};
ghost use Rattle.sja_run.specs.Expected.{HasReport, IsMet, ShowsExpected};
ghost use Rattle.sja_program.specs.PlanTexts.{RefusesTextIn};
ghost use Rattle.sja_program.specs.Denials.{DeniesOf};
ghost use Rattle.sja_run.specs.Inside.FileReads.{IsMetBy};
ghost use Rattle.sja_program.specs.declared.run_text.RunText.TheVariants.{Report};

use super::difference::difference;
use super::file_answers::written_by;
use super::file_outcome::FileOutcome;
use super::file_reads::read_file;
use super::file_texts::put;
use super::source_fault::SourceFault;
use super::sources::Sources;
use sja_command_line::ExpectedWords;
use sja_program::{Output, RunText, Unanswered, plan_in};
use std::alloc::Global;
use std::io::{Read, Write};
use std::sync::Wait;
use std::thread::Threads;
use text_codec::CommandRefusal;

/// Says whether a run of the plan has the report that is known, and gives the exit status: 0 where it has, otherwise 1.
pub(crate) fn reply_expected<T: Threads + Wait + Sync, F: Sources, R: Read, O: Write, E: Write>(
    rt: &T,
    alloc: Global,
    sources: &F,
    words: ExpectedWords<'_>,
    input: &mut R,
    out: &mut Output<O>,
    err: &mut Output<E>,
) -> u8
    ensures answered { out.new.failed ≡ false → err.new.failed ≡ false
        → ShowsExpected (F.holds sources.now) words.entry.threads words.entry.plan.now words.entry.report.now result
        (R.remaining input.old) (R.remaining input.new) (O.contents out.old.writer) (O.contents out.new.writer)
        (E.contents err.old.writer) (E.contents err.new.writer) }
    ensures failed { (out.new.failed ≡ true) ⊎ (err.new.failed ≡ true) → result ≡ 1 }
{
    let (name, outcome) = met(rt, alloc, sources, words, input);
    let answered = put(false, name, &outcome, out, err);
    if answered && !out.failed && !err.failed {
        0
    } else {
        1
    }
}

/// What comes of the plan and the report that is known, and of which file: that of the report, where it can't be read,
/// and else that of the plan.
fn met<'a, T: Threads + Wait + Sync, F: Sources, R: Read>(
    rt: &T,
    alloc: Global,
    sources: &F,
    words: ExpectedWords<'a>,
    input: &mut R,
) -> (&'a str, FileOutcome)
    ensures { IsMet (F.holds sources.now) words.entry.threads words.entry.plan.now words.entry.report.now
        (R.remaining input.old) (R.remaining input.new) result.0.now result.1 }
{
    match sources.whole(alloc, words.report) {
        Ok(report) => {
            let read = read_file(alloc, sources, words.plan, input);
            let outcome = met_by(rt, alloc, words.threads, report.as_slice(), read);
            (words.plan, outcome)
        }
        Err(SourceFault::Unreadable) => (words.report, FileOutcome::Unreadable),
        Err(SourceFault::OutOfMemory) => (
            words.report,
            FileOutcome::Refused(CommandRefusal::OutOfMemory),
        ),
    }
}

/// What comes of the plan that was read.
fn met_by<T: Threads + Wait + Sync>(
    rt: &T,
    alloc: Global,
    threads: bool,
    report: &[u8],
    read: Result<Vec<u8>, FileOutcome>,
) -> FileOutcome
    ensures { IsMetBy (λ v. v.items) threads report.now read result }
{
    match read {
        Ok(bytes) => match compared(rt, alloc, threads, report, bytes.as_slice()) {
            Ok(Some(said)) => FileOutcome::Told(said),
            Ok(None) => FileOutcome::Printed(Vec::new(alloc)),
            Err(Unanswered::Refused(refusal)) => FileOutcome::Refused(refusal),
            Err(Unanswered::Mistaken(text)) => FileOutcome::Mistaken(text),
        },
        Err(outcome) => outcome,
    }
}

/// What is said of the report of a run of the plan that these bytes are; nothing where it is the one that is known.
#[tactic(auto, using(sja_program::proofs::Denied::of_bytes))]
fn compared<T: Threads + Wait + Sync>(
    rt: &T,
    alloc: Global,
    threads: bool,
    report: &[u8],
    bytes: &[u8],
) -> Result<Option<Vec<u8>>, Unanswered>
    ensures ok { IfOk result (λ said.
        HasReport threads bytes.now report.now (option_map (λ text. text.items) said)) }
    ensures err { IfErr result (DeniesOf (RefusesTextIn threads Report bytes.now) bytes.now) }
{
    let plan = plan_in(alloc, bytes)?;
    let text = written_by(rt, alloc, threads, RunText::Report, &plan)?;
    let said = difference(alloc, &plan, text.as_slice(), report)?;
    Ok(said)
}
