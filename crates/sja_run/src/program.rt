//! [`sja`]: the whole program over words, a reader and two writers.

ghost use Rattle.std.specs.Prelude.{◌≡◌, ◌⊎◌, IfOk, IfErr, Some, false, true, map};
ghost use Rattle.sja_command_line.specs.Requests.{Request};
ghost use Rattle.sja_command_line.specs.Words.{ParsesAs};
ghost use Rattle.sja_program.specs.Answer.{AsksForOne, AsksForRun, IsPrinted, IsTurnedAway, Shows, request_left};
ghost use Rattle.sja_program.specs.Replies.{IsOneWhereFailed};
ghost use Rattle.sja_run.specs.Asked.{ShowsAsked};
ghost use Rattle.sja_program.specs.Denials.{IsDenied};
ghost use Rattle.sja_program.specs.Input.{ReadsFew};

use super::expected::reply_expected;
use super::files::reply_files;
use super::live::reply_live;
use super::sources::Sources;
use super::thread_text::written_threads;
use super::threaded_sweeps::told_sweep_jobs;
use sja_program::{FurtherTask, Output, ThreadTask, Unanswered, sja_alone};
use std::alloc::Global;
use std::convert::AsStr;
use std::io::{Read, Write};
use std::sync::Wait;
use std::thread::Threads;

/// The program: does what the words ask for, writes the text to `out` or one line to `err`, and answers the exit
/// status. The first word is the program's name.
///
/// The status is 0 where the text was written, 1 where an argument, the plan or memory was refused, a run failed, or a
/// read or a write failed, and 2 where the words don't parse, or ask for help or the version; then `err` has the
/// parser's own text.
/// `input` is read for a text of a run, with `--threads` or without, and for `check` and `sweep` alone: at most one
/// byte more of it than a plan may have that begins so, in at most 33,554,434 reads.
/// For `live` it is read to the line that ends the talk, each line after the answer of the one before it.
/// Of plans in files, which `sources` has, each is read, answered and told of, in order; `-` is the input. A report
/// that is expected is read before its plan.
/// For `--threads`, and for several files or a sweep with `--jobs` above 1, alone it starts threads, and waits.
/// The words, texts and statuses are this project's own rule.
pub fn sja<T: Threads + Wait + Sync, F: Sources, S: AsStr, R: Read, O: Write, E: Write>(
    rt: &T,
    alloc: Global,
    sources: &F,
    words: &[S],
    input: &mut R,
    out: &mut Output<O>,
    err: &mut Output<E>,
) -> u8
    ensures answered { (r : Request) → ParsesAs (map S.text words.now) r → out.new.failed ≡ false
        → err.new.failed ≡ false → ShowsAsked (F.holds sources.now) r result
        (R.remaining input.old) (R.remaining input.new) (O.contents out.old.writer) (O.contents out.new.writer)
        (E.contents err.old.writer) (E.contents err.new.writer) }
    ensures unparsed { ((r : Request) → ¬ ParsesAs (map S.text words.now) r) → out.new.failed ≡ false
        → err.new.failed ≡ false → IsTurnedAway (Some result) (E.contents err.old.writer) (E.contents err.new.writer) }
    ensures untouched { ((r : Request) → ¬ ParsesAs (map S.text words.now) r) → out.new ≡ out.old }
    ensures one_writer { ((r : Request) → ParsesAs (map S.text words.now) r → AsksForOne r)
        → (out.new ≡ out.old) ⊎ (err.new ≡ err.old) }
    ensures failed { out.old.failed ≡ false → err.old.failed ≡ false
        → (out.new.failed ≡ true) ⊎ (err.new.failed ≡ true) → result ≡ 1 }
    ensures unread { ((r : Request) → ParsesAs (map S.text words.now) r → ¬ AsksForRun r) → input.new ≡ input.old }
    ensures few { ((r : Request) → ParsesAs (map S.text words.now) r → AsksForOne r)
        → ReadsFew (R.remaining input.old) (R.remaining input.new) }
{
    match sja_alone(alloc, words, input, out, err) {
        Ok(status) => status,
        Err(FurtherTask::Files(files)) => {
            reply_files(rt, alloc, sources, &files, input, out, err)
        }
        Err(FurtherTask::Expected(words)) => {
            reply_expected(rt, alloc, sources, words, input, out, err)
        }
        Err(FurtherTask::LiveSession) => reply_live(alloc, input, out, err),
        Err(FurtherTask::Threads(threaded)) => reply_threads(rt, alloc, threaded, input, out, err),
    }
}

/// Does what is left to threads, and gives the exit status.
#[tactic(auto, using(sja_program::proofs::Denied::shows))]
fn reply_threads<T: Threads + Wait + Sync, R: Read, O: Write, E: Write>(
    rt: &T,
    alloc: Global,
    threaded: ThreadTask,
    input: &mut R,
    out: &mut Output<O>,
    err: &mut Output<E>,
) -> u8
    ensures answered { out.new.failed ≡ false → err.new.failed ≡ false
        → Shows (request_left threaded) (Some result) (R.remaining input.old) (R.remaining input.new)
        (O.contents out.old.writer) (O.contents out.new.writer)
        (E.contents err.old.writer) (E.contents err.new.writer) }
    ensures one_writer { (out.new ≡ out.old) ⊎ (err.new ≡ err.old) }
    ensures failed { IsOneWhereFailed out.old.failed err.old.failed out.new.failed err.new.failed result }
    ensures few { ReadsFew (R.remaining input.old) (R.remaining input.new) }
{
    match printed_threads(rt, alloc, threaded, input) {
        Ok(text) => out.print(text.as_slice()),
        Err(why) => err.deny(&why),
    }
}

/// The text that answers what is left to threads.
fn printed_threads<T: Threads + Wait + Sync, R: Read>(
    rt: &T,
    alloc: Global,
    threaded: ThreadTask,
    input: &mut R,
) -> Result<Vec<u8>, Unanswered>
    ensures ok { IfOk result (λ text.
        IsPrinted (request_left threaded) (R.remaining input.old) (R.remaining input.new) text.items) }
    ensures err { IfErr result
        (IsDenied (request_left threaded) (R.remaining input.old) (R.remaining input.new)) }
{
    match threaded {
        ThreadTask::Text(what) => written_threads(rt, alloc, what, input),
        ThreadTask::Sweep(words) => told_sweep_jobs(rt, alloc, words, input),
    }
}
