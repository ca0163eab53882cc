//! The next line of a reader.

ghost use Rattle.std.specs.Io.KnownBytes.{Keeps};
ghost use Rattle.std.specs.Prelude.{◌≡◌, ◌≤◌, ◌<◌, ◌++◌, ◌∷◌, [], ℕ, List, length, take, vec_capacity, IfOk};
ghost use Rattle.std.specs.Prelude.{IfErr, OnErr};
ghost use Rattle.sja_live.specs.Inside.Reading.{TakesByte, TakesLine, IsLineOf, IsLineReadable, LeavesLine};
ghost use Rattle.sja_live.specs.Lines.{most_line};
ghost use Rattle.sja_live.specs.declared.next_line.Line.TheVariants.{Over};
ghost use Rattle.sja_live.specs.declared.live_session_fault.LiveSessionFault.TheVariants.{Read as ReadFault};

use super::live_session_fault::LiveSessionFault;
use std::alloc::Global;
use std::io::{ErrorKind, Read};

/// How many bytes a line has at most, its line feed not counted (this project's own rule).
const MOST_LINE: usize = 64;

/// The byte that ends a line.
const LINE_FEED: u8 = b'\n';

/// What stands next in the input.
pub(crate) enum Line {
    /// A line, without its line feed.
    Text(String),
    /// A line that is too long.
    Long,
    /// A line whose bytes are no UTF-8.
    NoText,
    /// Nothing: the input is over.
    Over,
}

/// Reads the next line. One that is too long is read to its line feed, and forgotten.
///
/// Errors: [`LiveSessionFault::Read`] where a read failed; [`LiveSessionFault::Memory`].
#[tactic(auto, using(crate::proofs::Talks::BreakingOff::lines_left))]
pub(crate) fn next_line<R: Read>(alloc: Global, input: &mut R) -> Result<Line, LiveSessionFault>
    ensures line { IfOk result (λ line. TakesLine (R.remaining input.old) (R.remaining input.new) line) }
    ensures readable { IfOk result IsLineReadable }
    ensures broken { IfErr result (LeavesLine (R.remaining input.old) (R.remaining input.new)) }
{
    let mut bytes = Vec::with_capacity(alloc, MOST_LINE)?;
    let mut count = 0u64;
    for _ in 0..u64::MAX {
        let Some(byte) = next_byte(input)? else {
            return Ok(last_line(bytes, count));
        };
        if byte == LINE_FEED {
            return Ok(line_of(bytes, count));
        }
        keep(&mut bytes, byte);
        count += 1;
    }
    Err(LiveSessionFault::Read)
}

/// Keeps one byte more of a line, where fewer are kept than a line has at most.
fn keep(bytes: &mut Vec<u8>, byte: u8)
    requires { most_line ≤ vec_capacity bytes.old }
    ensures front { (line : List ℕ) → bytes.old.items ≡ take most_line line
        → bytes.new.items ≡ take most_line (line ++ byte ∷ []) }
    ensures room { vec_capacity bytes.new ≡ vec_capacity bytes.old }
{
    if bytes.len() >= MOST_LINE {
        return;
    }
    bytes.push_reserved(byte);
}

/// The line behind the last line feed, of so many bytes, of which these were kept; none where there are no bytes.
fn last_line(bytes: Vec<u8>, count: u64) -> Line
    ensures none { count ≡ 0 → result ≡ Over }
    ensures some { 0 < count → (line : List ℕ) → bytes.items ≡ take most_line line → count ≡ length line
        → IsLineOf line result }
{
    if count == 0 {
        return Line::Over;
    }
    line_of(bytes, count)
}

/// The line of so many bytes, of which these were kept: all, or as many as a line has at most.
fn line_of(bytes: Vec<u8>, count: u64) -> Line
    ensures { (line : List ℕ) → bytes.items ≡ take most_line line → count ≡ length line → IsLineOf line result }
{
    if count > MOST_LINE as u64 {
        return Line::Long;
    }
    match String::from_utf8(bytes) {
        Ok(text) => Line::Text(text),
        Err(_) => Line::NoText,
    }
}

/// Reads one byte. None where the input is over. A read that was interrupted is tried again.
///
/// Error: [`LiveSessionFault::Read`] where a read failed; none was read.
fn next_byte<R: Read>(input: &mut R) -> Result<Option<u8>, LiveSessionFault>
    ensures byte { IfOk result (λ byte. TakesByte (R.remaining input.old) (R.remaining input.new) byte) }
    ensures err { IfErr result (λ fault. fault ≡ ReadFault) }
    ensures kept { OnErr result (Keeps (R.remaining input.old) (R.remaining input.new)) }
{
    let mut byte = [0u8; 1];
    for _ in 0..u64::MAX {
        match input.read(&mut byte) {
            Ok(0) => return Ok(None),
            Ok(_) => return Ok(Some(byte[0])),
            Err(error) => {
                if error.kind() != ErrorKind::Interrupted {
                    return Err(LiveSessionFault::Read);
                }
            }
        }
    }
    Err(LiveSessionFault::Read)
}
