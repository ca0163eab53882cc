//! What steps answer by the port.

ghost use Rattle.std.specs.Prelude.{◌≡◌, Ok};
ghost use Rattle.sja_regs.specs.declared.status.Status.{Status as StatusBits};
ghost use Rattle.sja_regs.specs.Refusals.{fault_of};
ghost use Rattle.sja_regs.specs.Statuses.{status_byte};
ghost use Rattle.sja_driver.specs.Answers.{refusal_of, done_unless, value_answer};
ghost use Rattle.sja_driver.specs.Inside.Attempts.{done_answer};

use sja_regs::bits::is_set;
use sja_regs::{RegFault, letters};
use sja_steps::{Refusal, StepAnswer};

/// A port's refusal as a step's.
pub(crate) fn refusal_of(fault: RegFault) -> Refusal
    ensures { result ≡ refusal_of fault }
{
    match fault {
        RegFault::NoRegister => Refusal::NoRegister,
        RegFault::ReadOnly => Refusal::ReadOnly,
        RegFault::ResetOnly => Refusal::ResetOnly,
        RegFault::Locked => Refusal::Locked,
        RegFault::UseTyped => Refusal::UseTyped,
        RegFault::NotInVersion => Refusal::NotInVersion,
        RegFault::ActiveOnly => Refusal::ActiveOnly,
        RegFault::ListenOnly => Refusal::ListenOnly,
    }
}

/// The answer of a step that the port did or refused.
pub(crate) fn done_answer(done: Result<(), RegFault>) -> StepAnswer
    ensures value { result ≡ done_answer done }
    ensures refused { result ≡ done_unless (fault_of done) }
{
    match done {
        Ok(()) => StepAnswer::Done,
        Err(fault) => StepAnswer::Refused(refusal_of(fault)),
    }
}

/// The answer of a read.
pub(crate) fn value_answer(value: Result<u8, RegFault>) -> StepAnswer
    ensures { result ≡ value_answer value }
{
    match value {
        Ok(value) => StepAnswer::Value(value),
        Err(fault) => StepAnswer::Refused(refusal_of(fault)),
    }
}

/// Whether a status that was read shows the transmit buffer released: TBS (SJA1000 data sheet, 6.4.5).
pub(crate) fn shows_released(status: Result<u8, RegFault>) -> bool
    ensures { (s : StatusBits) → status ≡ Ok (status_byte s) → result ≡ s.tbs }
{
    match status {
        Ok(status) => is_set(status, letters::TBS),
        Err(_) => false,
    }
}
