//! What a driver writes.

ghost use Rattle.std.specs.Prelude.{◌≡◌, ◌<◌, true, OnOk, OnErr};
ghost use Rattle.sja_regs.specs.Addresses.{register_at, IsPlace};
ghost use Rattle.sja_regs.specs.Preservation.{OnlyEnabled};
ghost use Rattle.sja_regs.specs.Refusals.{first_fault, fault_of};
ghost use Rattle.sja_regs.specs.Registers.{by_bytes};
ghost use Rattle.sja_regs.specs.Writing.{mode_faults, write_faults, write_faults_at, after_writing, after_writing_at};
ghost use Rattle.sja_regs.specs.Writing.{with_warning_limit, with_mode, with_rxerr, with_txerr};
ghost use Rattle.sja_regs.specs.Writing.{after_forced_off, load_faults, after_loading, Carries};

use super::bits::differ;
use super::interrupts::Interrupts;
use super::mode::Mode;
use super::port::Port;
use super::reg_fault::RegFault;
use super::register::Register;
use super::registers::{FORCES_OFF, Registers};
use can_frame::Message;

impl Port {
    /// Writes the register at an address.
    ///
    /// Errors, the first that holds: [`RegFault::NoRegister`] where no register stands; [`RegFault::ReadOnly`], for
    /// RXERR and TXERR before version 3; [`RegFault::UseTyped`] for CMR, and for MOD with another RM, unless RM 0 asks
    /// for a bus-off; [`RegFault::NotInVersion`] for LOM and STM in version 1; [`RegFault::ResetOnly`] out of reset
    /// mode for EWLR, RXERR and TXERR, and for MOD with another LOM, STM or AFM; [`RegFault::Locked`] for the transmit
    /// buffer where TBS is 0. A refusal changes nothing.
    pub fn write(&mut self, addr: u8, value: u8) -> Result<(), RegFault>
        ensures refused { fault_of result
            ≡ first_fault (write_faults_at self.old (register_at self.old.mode.rm addr) value) }
        ensures written { OnOk result (self.new ≡ after_writing_at self.old (register_at self.old.mode.rm addr) value) }
        ensures unchanged { OnErr result (self.new ≡ self.old) }
        ensures enabled { OnlyEnabled self.old self.new }
    {
        match Register::at(addr, self.registers.mode.rm) {
            None => Err(RegFault::NoRegister),
            Some(register) => self.write_register(register, value),
        }
    }

    /// Writes a register.
    fn write_register(&mut self, register: Register, value: u8) -> Result<(), RegFault>
        requires { IsPlace register }
        ensures refused { fault_of result ≡ first_fault (write_faults self.old register value) }
        ensures written { OnOk result (self.new ≡ after_writing self.old register value) }
        ensures unchanged { OnErr result (self.new ≡ self.old) }
        ensures enabled { OnlyEnabled self.old self.new }
    {
        match register {
            Register::Mode => return self.write_mode(Mode::of(value)),
            Register::Command => return Err(RegFault::UseTyped),
            Register::ErrorWarningLimit => return self.write_warning_limit(value),
            Register::Buffer(i) => return self.write_buffer(i, value),
            Register::ReceiveErrorCounter => return self.write_rxerr(value),
            Register::TransmitErrorCounter => return self.write_txerr(value),
            Register::InterruptEnable => self.registers.enabled = Interrupts::of(value),
            Register::AcceptanceCode(i) => self.registers.acr[usize::from(i)] = value,
            Register::AcceptanceMask(i) => self.registers.amr[usize::from(i)] = value,
            _ => return Err(RegFault::ReadOnly),
        }
        Ok(())
    }

    /// Writes LOM, STM and AFM. Where a bus-off is asked for RM 0 brings it.
    fn write_mode(&mut self, mode: Mode) -> Result<(), RegFault>
        ensures refused { fault_of result ≡ first_fault (mode_faults self.old mode) }
        ensures written { OnOk result (self.new ≡ with_mode self.old mode) }
        ensures unchanged { OnErr result (self.new ≡ self.old) }
        ensures enabled { OnlyEnabled self.old self.new }
    {
        if let Some(fault) = self.registers.mode_fault(mode) {
            return Err(fault);
        }
        let forced = self.registers.is_forced();
        let registers = &mut self.registers;
        registers.mode = mode;
        if forced & !mode.rm {
            registers.mode.rm = true;
            self.go_off();
        }
        Ok(())
    }

    /// Writes EWLR, by which ES may change.
    fn write_warning_limit(&mut self, value: u8) -> Result<(), RegFault>
        ensures refused { fault_of result ≡ first_fault (write_faults self.old Register.ErrorWarningLimit value) }
        ensures written { OnOk result (self.new ≡ with_warning_limit self.old value) }
        ensures unchanged { OnErr result (self.new ≡ self.old) }
        ensures enabled { OnlyEnabled self.old self.new }
    {
        if !self.registers.mode.rm {
            return Err(RegFault::ResetOnly);
        }
        let before = self.registers.shown_state();
        self.registers.ewlr = value;
        let causes = self.registers.error_causes(before);
        self.raise(causes);
        Ok(())
    }

    /// The bus-off that was asked for: EI comes, where it has a cause, and no other interrupt.
    fn go_off(&mut self)
        requires bytes { by_bytes self.old ≡ true }
        requires reset { self.old.mode.rm ≡ true }
        ensures off { self.new ≡ after_forced_off self.old }
        ensures enabled { OnlyEnabled self.old self.new }
    {
        let before = self.registers.frozen;
        let registers = &mut self.registers;
        registers.go_off();
        registers.set_rec = Some(0);
        registers.frozen = registers.error_state();
        let causes = before.causes(true, registers.frozen);
        self.raise(causes);
    }

    /// Why an error counter isn't written.
    fn counter_fault(&self) -> Option<RegFault>
        ensures { result ≡ first_fault (write_faults self.now Register.TransmitErrorCounter 0) }
    {
        if !self.registers.by_bytes() {
            Some(RegFault::ReadOnly)
        } else if !self.registers.mode.rm {
            Some(RegFault::ResetOnly)
        } else {
            None
        }
    }

    /// Writes RXERR, which doesn't show while bus-off stands.
    fn write_rxerr(&mut self, value: u8) -> Result<(), RegFault>
        ensures refused { fault_of result ≡ first_fault (write_faults self.old Register.ReceiveErrorCounter value) }
        ensures written { OnOk result (self.new ≡ with_rxerr self.old value) }
        ensures unchanged { OnErr result (self.new ≡ self.old) }
    {
        if let Some(fault) = self.counter_fault() {
            return Err(fault);
        }
        let registers = &mut self.registers;
        if !registers.bs {
            registers.rxerr = value;
        }
        registers.set_rec = Some(value);
        Ok(())
    }

    /// Writes TXERR: each value but 255 ends bus-off.
    fn write_txerr(&mut self, value: u8) -> Result<(), RegFault>
        ensures refused { fault_of result ≡ first_fault (write_faults self.old Register.TransmitErrorCounter value) }
        ensures written { OnOk result (self.new ≡ with_txerr self.old value) }
        ensures unchanged { OnErr result (self.new ≡ self.old) }
    {
        if let Some(fault) = self.counter_fault() {
            return Err(fault);
        }
        self.registers.set_txerr(value);
        Ok(())
    }

    /// Writes a byte of the transmit buffer.
    fn write_buffer(&mut self, i: u8, value: u8) -> Result<(), RegFault>
        requires { i < 13 }
        ensures refused { fault_of result ≡ first_fault (write_faults self.old (Register.Buffer i) value) }
        ensures written { OnOk result (self.new ≡ after_writing self.old (Register.Buffer i) value) }
        ensures unchanged { OnErr result (self.new ≡ self.old) }
    {
        if !self.registers.tbs {
            return Err(RegFault::Locked);
        }
        self.registers.buffer[usize::from(i)] = value;
        Ok(())
    }

    /// Writes a message into the transmit buffer; the bytes after it are 0.
    ///
    /// Errors, the first that holds: [`RegFault::ActiveOnly`] in reset mode; [`RegFault::Locked`] where TBS is 0. A
    /// refusal changes nothing.
    pub fn load(&mut self, message: &Message) -> Result<(), RegFault>
        ensures refused { fault_of result ≡ first_fault (load_faults self.old) }
        ensures loaded { OnOk result (self.new ≡ after_loading self.old message.now) }
        ensures frame { OnOk result (Carries self.new message.now) }
        ensures unchanged { OnErr result (self.new ≡ self.old) }
    {
        if self.registers.mode.rm {
            return Err(RegFault::ActiveOnly);
        }
        if !self.registers.tbs {
            return Err(RegFault::Locked);
        }
        self.registers.buffer = message.buffer();
        Ok(())
    }
}

impl Registers {
    /// Why a mode isn't written.
    fn mode_fault(&self, mode: Mode) -> Option<RegFault>
        ensures { result ≡ first_fault (mode_faults self.now mode) }
    {
        if differ(self.mode.rm, mode.rm) & !self.is_forced() {
            Some(RegFault::UseTyped)
        } else if self.is_first_version() && (mode.lom || mode.stm) {
            Some(RegFault::NotInVersion)
        } else if !self.mode.rm & self.mode.is_other(mode) {
            Some(RegFault::ResetOnly)
        } else {
            None
        }
    }

    /// TXERR is written: each value but 255 ends bus-off.
    fn set_txerr(&mut self, value: u8)
        ensures { self.new ≡ with_txerr self.old value }
    {
        self.txerr = value;
        self.set_tec = Some(value);
        if value != FORCES_OFF {
            self.rxerr = self.set_rec.unwrap_or(self.rxerr);
            self.bs = false;
        }
    }
}
