//! The reads of a driver that knows addresses and bytes alone.

ghost use Rattle.std.specs.Prelude.{◌≡◌};
ghost use Rattle.sja_driver.specs.Answered.{value_or};

use super::unmodelled_registers::UnmodelledRegisters;
use sja_steps::StepAnswer;

impl UnmodelledRegisters {
    ghost use Rattle.can_frame.specs.declared.buffer_view.BufferView.{BufferView as SeenMessages};
    ghost use Rattle.sja_regs.specs.declared.registers.Registers.{Registers};
    ghost use Rattle.sja_regs.specs.Addresses.{register_at};
    ghost use Rattle.sja_regs.specs.Reading.{or_no_register, value_at};
    ghost use Rattle.sja_driver.specs.Answers.{value_answer};
    ghost use Rattle.sja_driver.specs.Reads.{value_by_bytes};

    /// What an address reads as, where the step `Read` of a typed driver answered this: its value, or else what is kept
    /// there, or 0.
    #[tactic(auto, using(crate::proofs::Bytes::ReadBack::value_is))]
    #[inline(always)]
    pub fn read_by(&self, address: u8, answer: &StepAnswer) -> u8
        ensures { (p : Registers) (seen : SeenMessages)
            → answer.now ≡ value_answer (or_no_register (value_at p seen (register_at p.mode.rm address)))
            → result ≡ value_by_bytes p self.now seen address }
    {
        value_of(answer, self.read(address))
    }
}

/// What a step read, or another number where it read none.
fn value_of(answer: &StepAnswer, other: u8) -> u8
    ensures { result ≡ value_or answer.now other }
{
    match answer {
        StepAnswer::Value(value) => *value,
        _ => other,
    }
}
