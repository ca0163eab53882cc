//! What a driver commands.

ghost use Rattle.std.specs.Prelude.{◌≡◌, OnOk, OnErr, IfOk};
ghost use Rattle.sja_regs.specs.Refusals.{first_fault, fault_of};
ghost use Rattle.sja_regs.specs.Commands.{command_of, command_faults, request_of, after_command};

use super::command::Command;
use super::port::Port;
use super::reg_fault::RegFault;
use can_frame::Frame;
use can_node_rules::Request;

impl Port {
    /// Whether [`command`](Port::command) would refuse a command. The request that it makes isn't looked at.
    ///
    /// Errors: those of [`command`](Port::command).
    #[inline(always)]
    pub fn judge_command(&self, value: u8) -> Result<(), RegFault>
        ensures { fault_of result ≡ first_fault (command_faults self.now (command_of value)) }
    {
        match self.command_fault(Command::of(value)) {
            Some(fault) => Err(fault),
            None => Ok(()),
        }
    }

    /// What [`command`](Port::command) would answer. Where it is not refused, [`obey`](Port::obey) does the rest.
    ///
    /// Errors: those of [`command`](Port::command).
    pub fn plan_command(&self, value: u8) -> Result<Option<Request>, RegFault>
        ensures refused { fault_of result ≡ first_fault (command_faults self.now (command_of value)) }
        ensures request { IfOk result (λ request. request ≡ request_of self.now (command_of value)) }
    {
        let command = Command::of(value);
        match self.command_fault(command) {
            Some(fault) => Err(fault),
            None => Ok(self.request_of(command)),
        }
    }

    /// Does a command, and answers the request that it makes of the transmit buffer, if it makes one. A driver plans it
    /// and then has it obeyed; tests alone call both at once.
    ///
    /// Errors, the first that holds: [`RegFault::ActiveOnly`] in reset mode; [`RegFault::UseTyped`] for RRB;
    /// [`RegFault::NotInVersion`] for SRR in version 1; with TR or SRR [`RegFault::ListenOnly`] in listen only mode and
    /// [`RegFault::Locked`] where TBS is 0. A refusal changes nothing.
    pub fn command(&mut self, value: u8) -> Result<Option<Request>, RegFault>
        ensures refused { fault_of result ≡ first_fault (command_faults self.old (command_of value)) }
        ensures request { IfOk result (λ request. request ≡ request_of self.old (command_of value)) }
        ensures done { OnOk result (self.new ≡ after_command self.old (command_of value)) }
        ensures unchanged { OnErr result (self.new ≡ self.old) }
    {
        let request = self.plan_command(value)?;
        self.obey(value);
        Ok(request)
    }

    /// Does a command that [`plan_command`](Port::plan_command) doesn't refuse, for a caller that has planned it. It is
    /// not judged again.
    pub fn obey(&mut self, value: u8)
        requires { first_fault (command_faults self.old (command_of value)) ≡ None }
        ensures { self.new ≡ after_command self.old (command_of value) }
    {
        let command = Command::of(value);
        let registers = &mut self.registers;
        if command.cdo {
            registers.dos = false;
        }
        if command.requests() {
            registers.tbs = false;
            registers.tcs = false;
        } else if command.at && !registers.tbs {
            registers.abort = true;
        }
    }

    /// Why a command isn't done.
    #[inline(always)]
    fn command_fault(&self, command: Command) -> Option<RegFault>
        ensures { result ≡ first_fault (command_faults self.now command) }
    {
        let registers = &self.registers;
        if registers.mode.rm {
            Some(RegFault::ActiveOnly)
        } else if command.rrb {
            Some(RegFault::UseTyped)
        } else if command.srr && registers.is_first_version() {
            Some(RegFault::NotInVersion)
        } else if command.requests() && registers.mode.lom {
            Some(RegFault::ListenOnly)
        } else if command.requests() && !registers.tbs {
            Some(RegFault::Locked)
        } else {
            None
        }
    }

    /// The request that a command makes.
    fn request_of(&self, command: Command) -> Option<Request>
        ensures { result ≡ request_of self.now command }
    {
        if !command.requests() {
            return None;
        }
        Some(Request {
            frame: Frame::in_buffer(&self.registers.buffer),
            single_shot: command.at,
            self_receive: !command.tr,
        })
    }
}
