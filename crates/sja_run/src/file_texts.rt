//! What is written of plans that stand in files.

ghost use Rattle.std.specs.Prelude.{◌≡◌, IfOk, false, length, map};
ghost use Rattle.std.specs.Io.KnownBytes.{Appends};
ghost use Rattle.std.specs.List.{list_all};
ghost use Rattle.sja_run.specs.Files.{is_printed, of_each, printed_of, refused_of};
ghost use Rattle.sja_run.specs.Inside.FileReads.{all_refused, outcomes_in};

use super::file_outcome::FileOutcome;
use super::name_lines::{put_name, put_unreadable};
use sja_program::Output;
use std::alloc::AllocError;
use std::io::Write;
use text_codec::CommandRefusal;

/// Writes what came of each of these files, in order, or of each that memory is refused, and says whether all were
/// answered.
pub(crate) fn put_outcomes<O: Write, E: Write>(
    several: bool,
    names: &[&str],
    outcomes: &Result<Vec<FileOutcome>, AllocError>,
    out: &mut Output<O>,
    err: &mut Output<E>,
) -> bool
    requires { IfOk outcomes.now (λ held. length held.items ≡ length names.now) }
    ensures all { let given = map (λ name. name.now) names.now in
        result ≡ list_all is_printed (outcomes_in (λ v. v.items) given outcomes.now) }
    ensures out { let given = map (λ name. name.now) names.now in out.new.failed ≡ false → (out.old.failed ≡ false)
        × Appends (O.contents out.old.writer) (O.contents out.new.writer)
        (of_each (printed_of several) given (outcomes_in (λ v. v.items) given outcomes.now)) }
    ensures err { let given = map (λ name. name.now) names.now in err.new.failed ≡ false → (err.old.failed ≡ false)
        × Appends (E.contents err.old.writer) (E.contents err.new.writer)
        (of_each (refused_of several) given (outcomes_in (λ v. v.items) given outcomes.now)) }
{
    match outcomes {
        Ok(held) => put_all(several, names, held.as_slice(), out, err),
        Err(_) => refuse_all(several, names, out, err),
    }
}

/// Writes what came of each of these files, in order, and says whether all were answered.
fn put_all<O: Write, E: Write>(
    several: bool,
    names: &[&str],
    outcomes: &[FileOutcome],
    out: &mut Output<O>,
    err: &mut Output<E>,
) -> bool
    requires { length outcomes.now ≡ length names.now }
    ensures all { result ≡ list_all is_printed outcomes.now }
    ensures out { out.new.failed ≡ false → (out.old.failed ≡ false)
        × Appends (O.contents out.old.writer) (O.contents out.new.writer)
        (of_each (printed_of several) (map (λ name. name.now) names.now) outcomes.now) }
    ensures err { err.new.failed ≡ false → (err.old.failed ≡ false)
        × Appends (E.contents err.old.writer) (E.contents err.new.writer)
        (of_each (refused_of several) (map (λ name. name.now) names.now) outcomes.now) }
{
    let mut all = true;
    for index in 0..names.len() {
        let answered = put(several, names[index], &outcomes[index], out, err);
        all &= answered;
    }
    all
}

/// Writes of each of these files that memory is refused, and says whether all were answered.
fn refuse_all<O: Write, E: Write>(
    several: bool,
    names: &[&str],
    out: &mut Output<O>,
    err: &mut Output<E>,
) -> bool
    ensures all { result ≡ list_all is_printed (all_refused (map (λ name. name.now) names.now)) }
    ensures out { let given = map (λ name. name.now) names.now in out.new.failed ≡ false → (out.old.failed ≡ false)
        × Appends (O.contents out.old.writer) (O.contents out.new.writer)
        (of_each (printed_of several) given (all_refused given)) }
    ensures err { let given = map (λ name. name.now) names.now in err.new.failed ≡ false → (err.old.failed ≡ false)
        × Appends (E.contents err.old.writer) (E.contents err.new.writer)
        (of_each (refused_of several) given (all_refused given)) }
{
    let refused = FileOutcome::Refused(CommandRefusal::OutOfMemory);
    let mut all = true;
    for name in names {
        let answered = put(several, name, &refused, out, err);
        all &= answered;
    }
    all
}

/// Writes what came of the file with this name, and says whether it was answered.
pub(crate) fn put<O: Write, E: Write>(
    several: bool,
    name: &str,
    outcome: &FileOutcome,
    out: &mut Output<O>,
    err: &mut Output<E>,
) -> bool
    ensures answered { result ≡ is_printed outcome.now }
    ensures out { out.new.failed ≡ false → (out.old.failed ≡ false)
        × Appends (O.contents out.old.writer) (O.contents out.new.writer) (printed_of several name.now outcome.now) }
    ensures err { err.new.failed ≡ false → (err.old.failed ≡ false)
        × Appends (E.contents err.old.writer) (E.contents err.new.writer) (refused_of several name.now outcome.now) }
{
    match outcome {
        FileOutcome::Printed(text) => {
            put_name(out, several, name);
            out.put(text.as_slice());
            true
        }
        FileOutcome::Told(text) => {
            put_name(out, several, name);
            out.put(text.as_slice());
            false
        }
        FileOutcome::Mistaken(text) => {
            put_name(err, several, name);
            err.put(text.as_slice());
            false
        }
        FileOutcome::Refused(refusal) => {
            put_name(err, several, name);
            err.refuse(*refusal);
            false
        }
        FileOutcome::Unreadable => {
            put_unreadable(err, name);
            false
        }
    }
}
