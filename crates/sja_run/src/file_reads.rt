//! The bytes of plans that stand in files, or on the input.

ghost use Rattle.std.specs.Prelude.{◌≡◌, ◌<◌, ◌≤◌, IfOk, IfErr, false, length, map, take, true};
ghost use Rattle.sja_run.specs.Files.{input_name};
ghost use Rattle.sja_run.specs.Inside.FileReads.{AreReads, IsReadOf};

use super::file_outcome::FileOutcome;
use super::source_fault::SourceFault;
use super::sources::Sources;
use sja_program::read_input;
use std::alloc::{AllocError, Global};
use std::io::Read;
use text_codec::CommandRefusal;

/// The name that the input has among files.
const INPUT_NAME: &str = "-";

/// What is read under the first of these names, one after another: bytes, or what came of a file of which none are had.
/// Once so many bytes are read nothing more is.
///
/// Error: [`AllocError`] where memory was refused before anything was read.
pub(crate) fn read_files<F: Sources, R: Read>(
    alloc: Global,
    sources: &F,
    names: &[&str],
    enough: usize,
    input: &mut R,
) -> Result<Vec<Result<Vec<u8>, FileOutcome>>, AllocError>
    requires { 0 < enough }
    ensures read { IfOk result (λ reads. AreReads (λ v. v.items) (F.holds sources.now)
        (map (λ name. name.now) (take (length reads.items) names.now)) (R.remaining input.old) (R.remaining input.new)
        reads.items) }
    ensures len { IfOk result (λ reads. length reads.items ≤ length names.now) }
    ensures some { 0 < length names.now → IfOk result (λ reads. 0 < length reads.items) }
    ensures kept { IfErr result (λ _. input.new ≡ input.old) }
{
    let mut reads = Vec::with_capacity(alloc, names.len())?;
    let mut next = 0;
    let mut bytes = 0usize;
    while next < names.len() && bytes < enough {
        let read = read_file(alloc, sources, names[next], input);
        bytes = bytes.saturating_add(length_of(&read));
        reads.push_reserved(read);
        next += 1;
    }
    Ok(reads)
}

/// How many bytes were read.
fn length_of(read: &Result<Vec<u8>, FileOutcome>) -> usize {
    match read {
        Ok(bytes) => bytes.len(),
        Err(_) => 0,
    }
}

/// The bytes under this name, or what came of the file where none are had.
pub(crate) fn read_file<F: Sources, R: Read>(
    alloc: Global,
    sources: &F,
    name: &str,
    input: &mut R,
) -> Result<Vec<u8>, FileOutcome>
    ensures { IsReadOf (λ v. v.items) (F.holds sources.now) name.now (R.remaining input.old) (R.remaining input.new)
        result }
{
    if is_input(name) {
        return match read_input(alloc, input) {
            Ok(bytes) => Ok(bytes),
            Err(refusal) => Err(FileOutcome::Refused(refusal)),
        };
    }
    match sources.read(alloc, name) {
        Ok(bytes) => Ok(bytes),
        Err(SourceFault::Unreadable) => Err(FileOutcome::Unreadable),
        Err(SourceFault::OutOfMemory) => Err(FileOutcome::Refused(CommandRefusal::OutOfMemory)),
    }
}

/// Whether this is the name that the input has among files.
fn is_input(name: &str) -> bool
    ensures input { result ≡ true → name.now ≡ input_name }
    ensures file { result ≡ false → ¬ (name.now ≡ input_name) }
{
    name == INPUT_NAME
}
