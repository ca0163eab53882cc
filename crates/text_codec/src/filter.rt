//! `filter MODE ACR AMR MESSAGE`: whether an acceptance filter passes the message's frame.

ghost use Rattle.std.specs.Prelude.{IfOk, IfErr};
ghost use Rattle.can_frame.specs.Filter.{Passes};
ghost use Rattle.text_codec.specs.Filter.{IsFiltering, IsVerdict, ReadsAsRegisters, RefusesFilter};
ghost use Rattle.text_codec.specs.Filter.{RefusesRegisters};

use super::command_refusal::CommandRefusal;
use super::message::frame_of;
use can_frame::{Filter, Frame};
use std::alloc::Global;

/// `pass` or `stop`, for a filter of this mode with the registers that these digits spell and the message that is
/// given. They are judged from left to right.
pub fn filtered(
    alloc: Global,
    single: bool,
    acr: &str,
    amr: &str,
    given: &str,
) -> Result<Vec<u8>, CommandRefusal>
    ensures ok { IfOk result (λ text. IsFiltering single acr.now amr.now given.now text.items) }
    ensures err { IfErr result (RefusesFilter acr.now amr.now given.now) }
{
    let acr = registers_of(acr)?;
    let amr = registers_of(amr)?;
    let frame = frame_of(alloc, given)?;
    let filter = Filter { single, acr, amr };
    let mut text = Vec::new(alloc);
    text.extend_from_slice(verdict_of(&filter, &frame).as_bytes())?;
    Ok(text)
}

/// The four registers that these eight digits spell.
fn registers_of(digits: &str) -> Result<[u8; 4], CommandRefusal>
    ensures ok { IfOk result (λ registers. ReadsAsRegisters digits.now registers) }
    ensures err { IfErr result (RefusesRegisters digits.now) }
{
    let mut registers = [0; 4];
    match hex::decode_to_slice(digits, &mut registers) {
        Ok(()) => Ok(registers),
        Err(_) => Err(CommandRefusal::NotHexadecimal),
    }
}

/// The line that says whether the filter passes the frame.
fn verdict_of(filter: &Filter, frame: &Frame) -> &'static str
    ensures { IsVerdict (Passes filter.now frame.now) result.now }
{
    if filter.passes(frame) {
        "pass\n"
    } else {
        "stop\n"
    }
}
