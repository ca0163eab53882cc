//! [`Written`]: a write on its way.

ghost use Rattle.std.specs.Prelude.{◌≡◌, true, not};
ghost use Rattle.sja_regs.specs.Commands.{command_of, requests};
ghost use Rattle.sja_driver.specs.Ignoring.{ignored_at, ignored_by_answer, ignored_command, ignored_for};
ghost use Rattle.sja_driver.specs.Ignoring.{is_kept_in_reset, or_by_answer, write_answer};
ghost use Rattle.sja_driver.specs.Written.{written_at, written_then};

use super::address::{BTR0, BTR1, OCR, RBSA};
use super::in_reset::is_reset;
use super::unmodelled_registers::UnmodelledRegisters;
use sja_regs::address::CMR;
use sja_regs::letters::TR;
use sja_regs::{Command, Port, RegFault};
use sja_steps::{Ignored, Refusal, StepAnswer};

/// CMR with TR alone.
const TRANSMIT: u8 = 1 << TR;

/// A write of a driver that knows addresses and bytes alone, as far as its acts were done.
#[derive(Clone, Copy, Debug, PartialEq, Eq)]
pub struct Written {
    /// What is kept for the driver then.
    pub kept: UnmodelledRegisters,
    /// Why the controller ignored the write, if that is known.
    pub ignored: Option<Ignored>,
}

impl Written {
    /// As it begins: by the registers that it finds, and by what is kept for the driver.
    #[inline(always)]
    pub fn begin(port: &Port, kept: UnmodelledRegisters, address: u8, value: u8) -> Written
        ensures { result ≡ written_at port.now kept address value }
    {
        let mut kept = kept;
        let reset = is_reset(port);
        kept.write(reset, address, value);
        let ignored = match address {
            CMR => command_ignored(port, value),
            BTR0 | BTR1 | OCR | RBSA if !reset => Some(Ignored::ResetOnly),
            _ => None,
        };
        Written { kept, ignored }
    }

    /// Goes on past an act that answered so.
    #[inline(always)]
    pub fn answered(&mut self, answer: &StepAnswer)
        ensures { self.new ≡ written_then self.old answer.now }
    {
        self.kept.answered(answer);
        if self.ignored.is_none() {
            self.ignored = answer_ignored(answer);
        }
    }

    /// What the write answers.
    #[inline(always)]
    pub fn answer(&self) -> StepAnswer
        ensures { result ≡ write_answer self.now.ignored }
    {
        match self.ignored {
            Some(cause) => StepAnswer::Ignored(cause),
            None => StepAnswer::Done,
        }
    }
}

/// Why a write of CMR is ignored, by the registers: a request is judged as one by TR.
fn command_ignored(port: &Port, value: u8) -> Option<Ignored>
    ensures { result ≡ ignored_command port.now (command_of value) }
{
    let request = if Command::of(value).requests() {
        TRANSMIT
    } else {
        0
    };
    match port.judge_command(request) {
        Err(RegFault::ActiveOnly) => Some(Ignored::ActiveOnly),
        Err(RegFault::ListenOnly) => Some(Ignored::ListenOnly),
        Err(RegFault::Locked) => Some(Ignored::Locked),
        _ => None,
    }
}

/// Why a write is ignored of which an act answered so, if it is by that.
#[inline(always)]
fn answer_ignored(answer: &StepAnswer) -> Option<Ignored>
    ensures { result ≡ ignored_by_answer answer.now }
{
    match answer {
        StepAnswer::Refused(refusal) => refusal_ignored(*refusal),
        _ => None,
    }
}

/// Why a write is ignored of which an act was refused so.
fn refusal_ignored(refusal: Refusal) -> Option<Ignored>
    ensures { result ≡ ignored_for refusal }
{
    match refusal {
        Refusal::ReadOnly => Some(Ignored::ReadOnly),
        Refusal::ResetOnly => Some(Ignored::ResetOnly),
        Refusal::Locked => Some(Ignored::Locked),
        Refusal::ActiveOnly | Refusal::Stopped => Some(Ignored::ActiveOnly),
        Refusal::Empty => Some(Ignored::Empty),
        _ => None,
    }
}
