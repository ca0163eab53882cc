//! Plans that stand in files: each is read, answered and told of, in order.

ghost use Rattle.std.specs.Prelude.{◌≡◌, ◌<◌, ◌≤◌, ◌⊎◌, IfOk, false, true, length, map, take};
ghost use Rattle.sja_run.specs.Files.{AreOutcomes, ShowsFiles};
ghost use Rattle.sja_run.specs.Inside.FileReads.{outcomes_in};

use super::file_answers::answers_to;
use super::file_outcome::FileOutcome;
use super::file_reads::read_files;
use super::file_texts::put_outcomes;
use super::sources::Sources;
use sja_command_line::{FileWords, PlanQuestion};
use sja_program::Output;
use std::alloc::{AllocError, Global};
use std::io::{Read, Write};
use std::sync::Wait;
use std::thread::Threads;

/// So many files a job are read at one time, where there are several jobs.
const FILES_A_JOB: usize = 8;

/// And so many bytes of plans a job, as many as one plan has at most.
const BYTES_A_JOB: usize = 1 << 24;

/// Answers what is asked of each plan in these files, and gives the exit status: 0 where each is answered, otherwise 1.
/// With one job file after file is read, answered and told of. With more a portion of the files is read, answered in so
/// many threads, and told of, and then the next: eight files a job, or fewer where their plans are long.
pub(crate) fn reply_files<T: Threads + Wait + Sync, F: Sources, R: Read, O: Write, E: Write>(
    rt: &T,
    alloc: Global,
    sources: &F,
    words: &FileWords<'_>,
    input: &mut R,
    out: &mut Output<O>,
    err: &mut Output<E>,
) -> u8
    ensures answered { out.new.failed ≡ false → err.new.failed ≡ false
        → ShowsFiles (F.holds sources.now) words.now.question (map (λ name. name.now) words.now.names.items) result
        (R.remaining input.old) (R.remaining input.new) (O.contents out.old.writer) (O.contents out.new.writer)
        (E.contents err.old.writer) (E.contents err.new.writer) }
    ensures failed { (out.new.failed ≡ true) ⊎ (err.new.failed ≡ true) → result ≡ 1 }
{
    let names = words.names.as_slice();
    let several = names.len() > 1;
    let jobs = words.jobs.max(1) as usize;
    let most = files_at_once(jobs);
    let mut all = true;
    let mut start = 0;
    while start < names.len() {
        if out.failed || err.failed {
            return 1;
        }
        let end = start + most.min(names.len() - start);
        let given = &names[start..end];
        let (many, outcomes) = outcomes_of(rt, alloc, sources, words.question, jobs, given, input);
        let some = &names[start..start + many];
        let answered = put_outcomes(several, some, &outcomes, out, err);
        all &= answered;
        start += many;
    }
    if all && !out.failed && !err.failed {
        0
    } else {
        1
    }
}

/// How many files so many jobs, one or more, read at one time at most.
fn files_at_once(jobs: usize) -> usize
    requires { 1 ≤ jobs }
    ensures { 1 ≤ result }
{
    if jobs == 1 {
        1
    } else {
        jobs.saturating_mul(FILES_A_JOB)
    }
}

/// What comes of the first of these files, and of how many. Where memory was refused, it was for each of them.
fn outcomes_of<T: Threads + Wait + Sync, F: Sources, R: Read>(
    rt: &T,
    alloc: Global,
    sources: &F,
    question: PlanQuestion,
    jobs: usize,
    names: &[&str],
    input: &mut R,
) -> (usize, Result<Vec<FileOutcome>, AllocError>)
    ensures are { let given = map (λ name. name.now) (take result.0 names.now) in
        AreOutcomes (F.holds sources.now) question given
        (R.remaining input.old) (R.remaining input.new) (outcomes_in (λ v. v.items) given result.1) }
    ensures len { IfOk result.1 (λ outcomes. length outcomes.items ≡ result.0) }
    ensures within { result.0 ≤ length names.now }
    ensures some { 0 < length names.now → 0 < result.0 }
{
    let enough = jobs.saturating_mul(BYTES_A_JOB).max(1);
    match read_files(alloc, sources, names, enough, input) {
        Ok(reads) => {
            let many = reads.len();
            (many, answers_to(rt, alloc, question, jobs, reads))
        }
        Err(refused) => (names.len(), Err(refused)),
    }
}
