//! The calls of a driver out of reset at its port: reads, writes, loads and commands.

ghost use Rattle.std.specs.Prelude.{◌≡◌, [], true, Err, OnOk, OnErr};
ghost use Rattle.sja_journal.specs.Lists.{on, OthersStand};
ghost use Rattle.sja_link.specs.Showing.{seen_of};
ghost use Rattle.sja_regs.specs.Addresses.{register_at};
ghost use Rattle.sja_regs.specs.Commands.{command_of, requests, command_faults, after_command};
ghost use Rattle.sja_regs.specs.Reading.{value_at, after_reading_at, or_no_register};
ghost use Rattle.sja_regs.specs.Refusals.{first_fault, fault_of};
ghost use Rattle.sja_regs.specs.Writing.{load_faults, after_loading};
ghost use Rattle.sja_driver.specs.declared.command_fault.CommandFault.TheVariants.{Busy};
ghost use Rattle.sja_driver.specs.Calls.{TakesIn, Writes};
ghost use Rattle.sja_driver.specs.Drivers.{link_in, activation_in, held_in, off_in};
ghost use Rattle.sja_driver.specs.Giving.{IsGiven};
ghost use Rattle.sja_driver.specs.Ports.{sent_by, register_fault};

use super::active::Active;
use super::command_fault::CommandFault;
use super::driver::Driver;
use can_frame::Message;
use sja_journal::Up;
use sja_link::DriverEnd;
use sja_regs::{Port, RegFault};

impl Driver<Active> {
    /// Takes in all that the link shows, and reads the register at an address.
    ///
    /// Error: [`RegFault::NoRegister`] where no register stands that can be read.
    #[inline(always)]
    pub fn read<E: DriverEnd>(
        &mut self,
        end: &mut E,
        port: &mut Port,
        addr: u8,
    ) -> Result<u8, RegFault>
        requires { E.node end.old ≡ (link_in self.old).node }
        ensures same { E.same end.old end.new }
        ensures others { OthersStand E.stands (activation_in self.old) end.old end.new }
        ensures took { TakesIn E.stands E.dry end.old end.new self.old self.new }
        ensures value { result ≡ or_no_register (value_at port.old (seen_of (off_in self.new) (held_in self.new))
            (register_at port.old.mode.rm addr)) }
        ensures after { port.new ≡ after_reading_at port.old (register_at port.old.mode.rm addr) }
    {
        let _ = self.look(end);
        let seen = self.state.ledger.seen();
        port.read(addr, &seen)
    }

    /// Writes the register at an address.
    ///
    /// Errors: those of [`Port::write`]. A refusal changes nothing.
    pub fn write(&self, port: &mut Port, addr: u8, value: u8) -> Result<(), RegFault>
        ensures { Writes port.old port.new addr value result }
    {
        port.write(addr, value)
    }

    /// Writes a message into the transmit buffer; the bytes after it are 0.
    ///
    /// Errors: those of [`Port::load`]. A refusal changes nothing.
    pub fn load(&self, port: &mut Port, message: &Message) -> Result<(), RegFault>
        ensures refused { fault_of result ≡ first_fault (load_faults port.old) }
        ensures loaded { OnOk result (port.new ≡ after_loading port.old message.now) }
        ensures unchanged { OnErr result (port.new ≡ port.old) }
    {
        port.load(message)
    }

    /// Does a command. The request that it makes of the transmit buffer, if it makes one, is given first.
    ///
    /// Errors, the first that holds: [`CommandFault::Reg`] with those of [`Port::command`]; [`CommandFault::Busy`]
    /// where the end gave the request back. The port is then what it was.
    pub fn command<E: DriverEnd>(
        &mut self,
        end: &mut E,
        port: &mut Port,
        value: u8,
    ) -> Result<(), CommandFault>
        requires { E.node end.old ≡ (link_in self.old).node }
        ensures ledger { self.new ≡ self.old }
        ensures same { E.same end.old end.new }
        ensures others { OthersStand E.stands (activation_in self.old) end.old end.new }
        ensures refused { register_fault result ≡ first_fault (command_faults port.old (command_of value)) }
        ensures given { OnOk result (IsGiven (on E.stands (activation_in self.old)) end.old end.new
            (sent_by port.old (command_of value))) }
        ensures kept { OnErr result (IsGiven (on E.stands (activation_in self.old)) end.old end.new []) }
        ensures done { OnOk result (port.new ≡ after_command port.old (command_of value)) }
        ensures unchanged { OnErr result (port.new ≡ port.old) }
        ensures busy { result ≡ Err Busy → E.full end.old (activation_in self.old)
            × (requests (command_of value) ≡ true) }
    {
        if let Some(request) = port.plan_command(value)? {
            if end.give(self.activation(), Up::Send(request)).is_err() {
                return Err(CommandFault::Busy);
            }
        }
        port.obey(value);
        Ok(())
    }
}
