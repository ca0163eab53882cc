//! Why a command wasn't done.

use sja_regs::RegFault;

/// Why a command wasn't done.
#[derive(Clone, Copy, Debug, PartialEq, Eq)]
pub enum CommandFault {
    /// The port refused it.
    Reg(RegFault),
    /// The link gave the request back.
    Busy,
}

impl From<RegFault> for CommandFault {
    ghost use Rattle.std.specs.Prelude.{◌≡◌};
    ghost use Rattle.sja_driver.specs.declared.command_fault.CommandFault.TheVariants.{Reg};

    ghost from_gives = { λ fault e. e ≡ Reg fault };

    fn from(fault: RegFault) -> CommandFault {
        CommandFault::Reg(fault)
    }
}
