//! What a driver reads.

ghost use Rattle.std.specs.Prelude.{◌≡◌, ◌<◌};
ghost use Rattle.sja_regs.specs.Addresses.{register_at, IsPlace};
ghost use Rattle.sja_regs.specs.Facts.{RegisterFacts};
ghost use Rattle.sja_regs.specs.Reading.{received_byte, value_of, value_at};
ghost use Rattle.sja_regs.specs.Reading.{or_no_register, after_reading, after_reading_at};

use super::interrupts::Interrupts;
use super::port::Port;
use super::reg_fault::RegFault;
use super::register::Register;
use super::registers::Registers;
use can_frame::BufferView;

impl Port {
    /// Reads the register at an address. What the driver sees of its messages is in the receive buffer, in RMC, in RBS
    /// and in RI. Reading IR clears it but for RI; reading ALC or ECC allows the next capture.
    ///
    /// Errors: [`RegFault::NoRegister`] where no register stands that can be read; nothing changes then.
    pub fn read(&mut self, addr: u8, seen: &BufferView) -> Result<u8, RegFault>
        ensures value { result ≡ or_no_register (value_at self.old seen.now (register_at self.old.mode.rm addr)) }
        ensures after { self.new ≡ after_reading_at self.old (register_at self.old.mode.rm addr) }
    {
        let Some(register) = Register::at(addr, self.registers.mode.rm) else {
            return Err(RegFault::NoRegister);
        };
        let value = self.value(register, seen);
        self.registers.look(register);
        value.ok_or(RegFault::NoRegister)
    }

    /// What [`read`](Port::read) would answer now, if a register stands there that can be read. Nothing is cleared.
    pub fn peek(&self, addr: u8, seen: &BufferView) -> Option<u8>
        ensures { result ≡ value_at self.now seen.now (register_at self.now.mode.rm addr) }
    {
        match Register::at(addr, self.registers.mode.rm) {
            Some(register) => self.value(register, seen),
            None => None,
        }
    }

    /// What a register reads as.
    fn value(&self, register: Register, seen: &BufferView) -> Option<u8>
        requires { IsPlace register }
        ensures { result ≡ value_of self.now seen.now register }
    {
        let registers = &self.registers;
        match register {
            Register::Mode => Some(registers.mode.byte()),
            Register::Command => None,
            Register::Status => Some(registers.status(seen).byte()),
            Register::Interrupt => Some(registers.interrupts(seen).byte()),
            Register::InterruptEnable => Some(registers.enabled.byte()),
            Register::ArbitrationLostCapture => Some(registers.alc.value),
            Register::ErrorCodeCapture => Some(registers.ecc.value),
            Register::ErrorWarningLimit => Some(registers.ewlr),
            Register::ReceiveErrorCounter => Some(registers.rxerr),
            Register::TransmitErrorCounter => Some(registers.txerr),
            Register::AcceptanceCode(i) => Some(registers.acr[usize::from(i)]),
            Register::AcceptanceMask(i) => Some(registers.amr[usize::from(i)]),
            Register::Buffer(i) => Some(received_byte(seen, i)),
            Register::ReceiveMessageCounter => Some(seen.count),
        }
    }
}

impl Registers {
    /// What reading a register leaves.
    fn look(&mut self, register: Register)
        ensures { self.new ≡ after_reading self.old register }
    {
        match register {
            Register::Interrupt => self.pending = Interrupts::none(),
            Register::ArbitrationLostCapture => self.alc.was_read = true,
            Register::ErrorCodeCapture => self.ecc.was_read = true,
            _ => {}
        }
    }
}

/// A byte of the first message that is seen, or 0.
fn received_byte(seen: &BufferView, i: u8) -> u8
    ensures { result ≡ received_byte seen.now.first i }
{
    match &seen.first {
        None => 0,
        Some(message) => message.byte(usize::from(i)).unwrap_or(0),
    }
}
