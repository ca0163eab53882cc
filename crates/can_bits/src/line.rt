//! The whole line of a frame, made.

ghost use Rattle.std.specs.Prelude.{◌≡◌, ◌≤◌, ◌+◌, ◌++◌, IfOk, vec_len, vec_capacity};
ghost use Rattle.can_levels.specs.Line.{IsSentLine, tail};

use super::crc::crc_of;
use super::layout::CRC_LEVELS;
use super::sent_body::{body_of, push_bits};
use super::stuffing::push_stuffed;
use can_frame::{Frame, OutOfMemory};
use can_levels::Level;
use std::alloc::Global;

/// The most levels a line has: 118 before stuffing, a stuff bit after each four of them, and 10 after the stuffed part.
const LONGEST_LINE: usize = 157;

/// The line that a transmitter of this frame puts on the bus: body, CRC sequence, stuff bits, and after them the CRC
/// delimiter, ACK slot, ACK delimiter and EOF, all recessive (Bosch CAN 2.0 part A section 3.1.1 and part B section
/// 3.2).
///
/// Its room is reserved once. Answers [`OutOfMemory`] where that was refused.
pub fn line_of(alloc: Global, frame: &Frame) -> Result<Vec<Level>, OutOfMemory>
    ensures { IfOk result (λ l. IsSentLine frame.now l.items) }
{
    let mut line = Vec::with_capacity(alloc, LONGEST_LINE)?;
    let mut bits = body_of(frame);
    let check = crc_of(bits.as_slice());
    push_bits(&mut bits, CRC_LEVELS, u128::from(check));
    push_stuffed(&mut line, bits.as_slice());
    push_tail(&mut line);
    Ok(line)
}

/// What follows the stuffed part: all recessive as a transmitter sends it.
fn push_tail(line: &mut Vec<Level>)
    requires { vec_len line.old + 10 ≤ vec_capacity line.old }
    ensures { line.new.items ≡ line.old.items ++ tail Level.Recessive }
{
    for _ in 0..10usize {
        line.push_reserved(Level::Recessive);
    }
}
