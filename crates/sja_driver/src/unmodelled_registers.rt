//! The registers that are kept for a driver.

ghost use Rattle.std.specs.Prelude.{◌≡◌};
ghost use Rattle.sja_driver.specs.ClockDivider.{divider_after};
ghost use Rattle.sja_driver.specs.Kept.{at_power_on, kept_at, kept_after, moved_by_answer};
ghost use Rattle.sja_driver.specs.StartAddress.{start_after};

use super::address::{BTR0, BTR1, CDR, OCR, RBSA};
use sja_steps::StepAnswer;

/// The registers that are kept for a driver and have no effect on the bus (SJA1000 data sheet, 6.4.17 and 6.5.1 to
/// 6.5.4).
#[derive(Clone, Copy, Debug, PartialEq, Eq)]
pub struct UnmodelledRegisters {
    /// Bus timing 0. A node takes one sample a bit, whatever it says.
    pub btr0: u8,
    /// Bus timing 1.
    pub btr1: u8,
    /// Output control.
    pub ocr: u8,
    /// The receive buffer's start address in the 64 bytes of the receive FIFO.
    pub rbsa: u8,
    /// Clock divider.
    pub cdr: u8,
}

impl UnmodelledRegisters {
    /// After power-on: all 0, but for bit 7 of CDR, which says PeliCAN.
    pub fn new() -> UnmodelledRegisters
        ensures { result ≡ at_power_on }
    {
        UnmodelledRegisters {
            btr0: 0,
            btr1: 0,
            ocr: 0,
            rbsa: 0,
            cdr: 0x80,
        }
    }

    /// What an address reads as at which no register of the port can be read: 0 where none is kept either.
    #[inline(always)]
    pub fn read(&self, address: u8) -> u8
        ensures { result ≡ kept_at self.now address }
    {
        match address {
            BTR0 => self.btr0,
            BTR1 => self.btr1,
            OCR => self.ocr,
            RBSA => self.rbsa,
            CDR => self.cdr,
            _ => 0,
        }
    }

    /// Takes what is written to an address, in reset mode (`reset`) or out of it. In reset mode RBSA takes bits 0 to 5,
    /// CDR all but 4 and 7, and the others the whole byte; out of it CDR takes bits 0 to 2, and nothing else is taken.
    #[inline(always)]
    pub fn write(&mut self, reset: bool, address: u8, value: u8)
        ensures { self.new ≡ kept_after self.old reset address value }
    {
        match address {
            BTR0 if reset => self.btr0 = value,
            BTR1 if reset => self.btr1 = value,
            OCR if reset => self.ocr = value,
            RBSA if reset => self.rbsa = value % 64,
            CDR => self.cdr = divider_after(self.cdr, reset, value),
            _ => {}
        }
    }

    /// Moves RBSA on by what a step released, if it released a message.
    #[inline(always)]
    pub fn answered(&mut self, answer: &StepAnswer)
        ensures { self.new ≡ moved_by_answer self.old answer.now }
    {
        if let StepAnswer::Released(length) = answer {
            self.rbsa = start_after(self.rbsa, *length);
        }
    }
}

/// CDR after a write.
fn divider_after(divider: u8, reset: bool, value: u8) -> u8
    ensures { result ≡ divider_after divider reset value }
{
    if reset {
        128 + value / 32 % 4 * 32 + value % 16
    } else {
        divider / 8 * 8 + value % 8
    }
}

/// RBSA after a release of a message of this length.
fn start_after(start: u8, length: u8) -> u8
    ensures { result ≡ start_after start length }
{
    ((u16::from(start) + u16::from(length)) % 64) as u8
}
