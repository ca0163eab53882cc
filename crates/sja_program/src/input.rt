//! The input, read up to a bound, and the plan that it is.

ghost use Rattle.std.specs.Prelude.{◌≡◌, ◌<◌, ◌≤◌, ◌+◌, ℕ, List, Option, IfOk, IfErr, OnOk, length};
ghost use Rattle.std.specs.Io.KnownBytes.{Consumes, IsAtEnd};
ghost use Rattle.sja_program.specs.Input.{most_read, RefusesInput};
ghost use Rattle.sja_program.specs.Run.{RefusesRun};
ghost use Rattle.sja_program.specs.Denials.{Denies};
ghost use Rattle.sja_program.specs.RunRefusals.{HoldsPlan};

use super::run_plan::plan_in;
use super::unanswered::Unanswered;
use sja_plan::Plan;
use sja_plan_reading::{MOST_BYTES, MOST_BYTES_BY_BYTES, most_bytes};
use std::alloc::Global;
use std::io::Read;
use text_codec::CommandRefusal;

/// How many reads are made at most: two for each byte of the longest plan, and of one more.
const MOST_READS: u32 = 2 * (MOST_BYTES_BY_BYTES as u32 + 1);

/// For how many bytes a read has room at most.
const ROOM: usize = 1_024;

/// The plan that the bytes of the input are.
///
/// Errors: those of [`read_input`] and of [`plan_in`].
#[tactic(auto, using(crate::proofs::Denied::of_input))]
pub fn plan_of_input<R: Read>(alloc: Global, input: &mut R) -> Result<Plan, Unanswered>
    ensures ok { IfOk result (HoldsPlan (R.remaining input.old) (R.remaining input.new)) }
    ensures err { IfErr result (Denies RefusesRun (R.remaining input.old) (R.remaining input.new)) }
{
    let bytes = read_input(alloc, input)?;
    let plan = plan_in(alloc, bytes.as_slice())?;
    Ok(plan)
}

/// The bytes of the input, up to its end or to one more than a plan may have that begins so: to 65,537 of them, or to
/// 16,777,217 where [`BY_BYTES_LINE`](sja_plan_reading::BY_BYTES_LINE) stands before all other keys. It makes at most
/// 33,554,434 reads (this project's own rule).
///
/// Errors: [`CommandRefusal::Read`] where a read fails, or where that many reads come neither to the end nor to as many
/// bytes; [`CommandRefusal::OutOfMemory`].
pub fn read_input<R: Read>(alloc: Global, input: &mut R) -> Result<Vec<u8>, CommandRefusal>
    ensures taken { IfOk result (λ bytes. Consumes (R.remaining input.old) (R.remaining input.new) bytes.items) }
    ensures bound { IfOk result (λ bytes. length bytes.items ≤ most_read bytes.items) }
    ensures whole { IfOk result (λ bytes.
        length bytes.items < most_read bytes.items → IsAtEnd (R.remaining input.new)) }
    ensures err { IfErr result (RefusesInput (R.remaining input.old) (R.remaining input.new)) }
{
    let mut bytes = Vec::new(alloc);
    let mut buffer = [0u8; ROOM];
    for _ in 0..MOST_READS {
        let room = (least_read(bytes.as_slice()) - bytes.len()).min(ROOM);
        let count = read_once(input, &mut bytes, &mut buffer[..room])?;
        if count == 0 || bytes.len() == least_read(bytes.as_slice()) {
            return Ok(bytes);
        }
    }
    Err(CommandRefusal::Read)
}

/// So many bytes are read before the first ones are looked at: one more than a short plan may have, whatever they are.
/// Of more it is how many are read at most.
#[tactic(auto, using(crate::proofs::BytesRead::MostRead::most_least))]
fn least_read(bytes: &[u8]) -> usize
    requires within { length bytes.now ≤ most_read bytes.now }
    ensures few { result ≤ most_read bytes.now }
    ensures enough { length bytes.now ≤ result }
    ensures more { length bytes.now < most_read bytes.now → length bytes.now < result }
{
    if bytes.len() <= MOST_BYTES {
        return MOST_BYTES + 1;
    }
    most_read(bytes)
}

/// How many bytes are read at most where the first ones are these: one more than a plan may have that begins so. Where
/// there are more than a plan may have that begins otherwise they aren't looked at again.
#[tactic(auto, using(crate::proofs::BytesRead::MostRead::most_few, crate::proofs::BytesRead::MostRead::most_of_many))]
fn most_read(bytes: &[u8]) -> usize
    requires within { length bytes.now ≤ most_read bytes.now }
    ensures { result ≡ most_read bytes.now }
{
    if bytes.len() > MOST_BYTES + 1 {
        return MOST_BYTES_BY_BYTES + 1;
    }
    most_bytes(bytes) + 1
}

/// Makes one read, of as many bytes as the buffer has at most, puts them behind those read before, and counts them.
fn read_once<R: Read>(
    input: &mut R,
    bytes: &mut Vec<u8>,
    buffer: &mut [u8],
) -> Result<usize, CommandRefusal>
    requires few { length bytes.old.items < most_read bytes.old.items }
    requires room { length bytes.old.items + length buffer.old ≤ most_read bytes.old.items }
    ensures taken { (before : Option (List ℕ)) → Consumes before (R.remaining input.old) bytes.old.items
        → IfOk result (λ _. Consumes before (R.remaining input.new) bytes.new.items) }
    ensures count { IfOk result (λ count. length bytes.new.items ≡ length bytes.old.items + count) }
    ensures bound { IfOk result (λ count. count ≤ length buffer.old) }
    ensures few { OnOk result (length bytes.new.items ≤ most_read bytes.new.items) }
    ensures end { IfOk result (λ count. count ≡ 0 → 0 < length buffer.old → IsAtEnd (R.remaining input.new)) }
    ensures err { (before : Option (List ℕ)) → Consumes before (R.remaining input.old) bytes.old.items
        → IfErr result (RefusesInput before (R.remaining input.new)) }
{
    let Ok(count) = input.read(buffer) else {
        return Err(CommandRefusal::Read);
    };
    bytes.extend_from_slice(&buffer[..count])?;
    Ok(count)
}
