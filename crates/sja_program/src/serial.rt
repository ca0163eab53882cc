//! [`sja_alone`]: the program without threads, over words, a reader and two writers.

ghost use Rattle.std.specs.Prelude.{◌≡◌, ◌⊎◌, None, Some, IfOk, IfErr, IfSome, false, true, map};
ghost use Rattle.sja_command_line.specs.Requests.{Request, check, request_of};
ghost use Rattle.sja_command_line.specs.Words.{ParsesAs};
ghost use Rattle.sja_program.specs.Answer.{AsksForRun, IsCheck, IsLeftOver, Shows, IsLeft, IsTurnedAway};
ghost use Rattle.sja_program.specs.Answer.{request_over, status_in};
ghost use Rattle.sja_program.specs.Replies.{IsJudged, IsOneWhereFailed};
ghost use Rattle.std.specs.Io.KnownBytes.{Appends};
ghost use Rattle.sja_program.specs.Input.{ReadsFew};

use super::answer::printed;
use super::check::checked;
use super::further_task::FurtherTask;
use super::output::Output;
use super::plan_check::PlanCheck;
use super::run_text::{RunText, picture_or_drawing};
use super::thread_task::ThreadTask;
use sja_command_line::{Task, WordsFault, parse};
use std::alloc::Global;
use std::convert::AsStr;
use std::io::{Read, Write};
use text_codec::CommandRefusal;

/// The program, without threads: does what the words ask for, writes the text to `out` or one line to `err`, and
/// answers the exit status. The first word is the program's name. Where the words ask for threads, for plans in files
/// or for a session that is driven, it answers for what, and nothing was read or written.
///
/// The status is 0 where the text was written, 1 where an argument, the plan or memory was refused or a read or a write
/// failed, and 2 where the words don't parse, or ask for help or the version; then `err` has the parser's own text.
/// `input` is read for a text of a run, for `check`, `sweep` and `plan` alone: at most one byte more of it than a plan
/// may have that begins so, in at most 33,554,434 reads.
/// The words, texts and statuses are this project's own rule.
#[tactic(auto, using(crate::proofs::BytesRead::FewBytes::unread))]
pub fn sja_alone<'a, S: AsStr, R: Read, O: Write, E: Write>(
    alloc: Global,
    words: &'a [S],
    input: &mut R,
    out: &mut Output<O>,
    err: &mut Output<E>,
) -> Result<u8, FurtherTask<'a>>
    ensures answered { (r : Request) → ParsesAs (map S.text words.now) r → ¬ IsLeftOver r
        → out.new.failed ≡ false → err.new.failed ≡ false
        → Shows r (status_in result) (R.remaining input.old) (R.remaining input.new)
        (O.contents out.old.writer) (O.contents out.new.writer)
        (E.contents err.old.writer) (E.contents err.new.writer) }
    ensures unparsed { ((r : Request) → ¬ ParsesAs (map S.text words.now) r)
        → out.new.failed ≡ false → err.new.failed ≡ false
        → IsTurnedAway (status_in result) (E.contents err.old.writer) (E.contents err.new.writer) }
    ensures untouched { ((r : Request) → ¬ ParsesAs (map S.text words.now) r) → out.new ≡ out.old }
    ensures threads { (r : Request) → ParsesAs (map S.text words.now) r → IsLeftOver r
        → IsLeft (status_in result) err.new.failed (E.contents err.old.writer) (E.contents err.new.writer)
        × (input.new ≡ input.old) × (out.new ≡ out.old) }
    ensures left { IfErr result (λ left. ParsesAs (map S.text words.now) (request_over left)
        × IsLeftOver (request_over left) × (err.new ≡ err.old)) }
    ensures one_writer { (out.new ≡ out.old) ⊎ (err.new ≡ err.old) }
    ensures failed { out.old.failed ≡ false → err.old.failed ≡ false
        → (out.new.failed ≡ true) ⊎ (err.new.failed ≡ true) → status_in result ≡ Some 1 }
    ensures unread { ((r : Request) → ParsesAs (map S.text words.now) r → ¬ AsksForRun r) → input.new ≡ input.old }
    ensures few { ReadsFew (R.remaining input.old) (R.remaining input.new) }
{
    match parse(alloc, words) {
        Ok(task) => match left_of(task) {
            Ok(left) => Err(left),
            Err(task) => Ok(reply(alloc, task, input, out, err)),
        },
        Err(WordsFault::OutOfMemory) => Ok(err.refuse(CommandRefusal::OutOfMemory)),
        Err(WordsFault::Unparsed(text)) => Ok(err.turn_away(text.as_bytes())),
    }
}

/// What a task leaves to another call; or the task itself, where it leaves nothing.
fn left_of<'a>(task: Task<'a>) -> Result<FurtherTask<'a>, Task<'a>>
    ensures left { IfOk result (λ left. (request_of task.entry ≡ request_over left)
        × IsLeftOver (request_over left)) }
    ensures other { IfErr result (λ other. (other ≡ task.entry) × ¬ IsLeftOver (request_of task.entry)) }
{
    match task {
        Task::Run { threads: true } => Ok(FurtherTask::Threads(ThreadTask::Text(RunText::Report))),
        Task::Wave { threads: true } => Ok(FurtherTask::Threads(ThreadTask::Text(RunText::Wave))),
        Task::Trace { threads: true } => Ok(FurtherTask::Threads(ThreadTask::Text(RunText::Trace))),
        Task::Frames {
            bits,
            threads: true,
        } => Ok(FurtherTask::Threads(ThreadTask::Text(RunText::Frames(bits)))),
        Task::Picture {
            first,
            last,
            svg,
            threads: true,
            meant,
        } => Ok(FurtherTask::Threads(ThreadTask::Text(picture_or_drawing(
            first, last, svg, meant,
        )))),
        Task::Candump {
            errors,
            threads: true,
        } => Ok(FurtherTask::Threads(ThreadTask::Text(RunText::Candump(errors)))),
        Task::Sweep(words) if words.jobs > 1 => Ok(FurtherTask::Threads(ThreadTask::Sweep(words))),
        Task::Files(words) => Ok(FurtherTask::Files(words)),
        Task::Expected(words) => Ok(FurtherTask::Expected(words)),
        Task::Live => Ok(FurtherTask::LiveSession),
        other => Err(other),
    }
}

/// Does the task, which isn't left to another call, and gives the exit status.
#[tactic(auto, using(crate::proofs::Denied::shows))]
fn reply<R: Read, O: Write, E: Write>(
    alloc: Global,
    task: Task<'_>,
    input: &mut R,
    out: &mut Output<O>,
    err: &mut Output<E>,
) -> u8
    requires alone { ¬ IsLeftOver (request_of task) }
    ensures answered { out.new.failed ≡ false → err.new.failed ≡ false
        → Shows (request_of task.entry) (Some result) (R.remaining input.old) (R.remaining input.new)
        (O.contents out.old.writer) (O.contents out.new.writer)
        (E.contents err.old.writer) (E.contents err.new.writer) }
    ensures one_writer { (out.new ≡ out.old) ⊎ (err.new ≡ err.old) }
    ensures failed { IsOneWhereFailed out.old.failed err.old.failed out.new.failed err.new.failed result }
    ensures unread { AsksForRun (request_of task.entry) ⊎ (input.new ≡ input.old) }
    ensures few { ReadsFew (R.remaining input.old) (R.remaining input.new) }
{
    if let Some(strict) = check_in(&task) {
        return reply_check(alloc, strict, input, out, err);
    }
    match printed(alloc, task, input) {
        Ok(text) => out.print(text.as_slice()),
        Err(why) => err.deny(&why),
    }
}

/// Whether a task that is `check` is strict; nothing where it is another one.
fn check_in(task: &Task<'_>) -> Option<bool>
    ensures check { IfSome result (λ strict. request_of task.now ≡ check strict) }
    ensures other { result ≡ None → ¬ IsCheck (request_of task.now) }
{
    match task {
        Task::Check { strict } => Some(*strict),
        _ => None,
    }
}

/// Does `check`, and gives the exit status: 1 where the plan has a mistake, which goes to the error output, and where
/// strictly its run left something out.
#[tactic(auto, using(crate::proofs::BytesRead::FewBytes::few))]
fn reply_check<R: Read, O: Write, E: Write>(
    alloc: Global,
    strict: bool,
    input: &mut R,
    out: &mut Output<O>,
    err: &mut Output<E>,
) -> u8
    ensures answered { out.new.failed ≡ false → err.new.failed ≡ false
        → Shows (check strict) (Some result) (R.remaining input.old) (R.remaining input.new)
        (O.contents out.old.writer) (O.contents out.new.writer)
        (E.contents err.old.writer) (E.contents err.new.writer) }
    ensures one_writer { (out.new ≡ out.old) ⊎ (err.new ≡ err.old) }
    ensures failed { IsOneWhereFailed out.old.failed err.old.failed out.new.failed err.new.failed result }
    ensures few { ReadsFew (R.remaining input.old) (R.remaining input.new) }
{
    match checked(alloc, input) {
        Ok(PlanCheck::Hints(text)) => put_hints(strict, &text, out),
        Ok(PlanCheck::Mistake(text)) => {
            err.put(text.as_slice());
            1
        }
        Err(why) => err.refuse(why),
    }
}

/// Writes hints, and gives the exit status.
fn put_hints<O: Write>(strict: bool, text: &Vec<u8>, out: &mut Output<O>) -> u8
    ensures judged { out.new.failed ≡ false → IsJudged strict text.now.items result }
    ensures failed { out.new.failed ≡ true → result ≡ 1 }
    ensures written { out.new.failed ≡ false → (out.old.failed ≡ false)
        × Appends (O.contents out.old.writer) (O.contents out.new.writer) text.now.items }
{
    let status = out.print(text.as_slice());
    if strict && !text.is_empty() {
        return 1;
    }
    status
}
