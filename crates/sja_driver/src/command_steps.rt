//! [`WrittenCommand`]: what a write of CMR does.

ghost use Rattle.std.specs.Prelude.{◌≡◌, ◌++◌};
ghost use Rattle.sja_regs.specs.Commands.{command_of};
ghost use Rattle.sja_driver.specs.CommandWrites.{commands, releases, command_steps};

use super::command_bits::{command_byte, permitted_part};
use super::in_reset::is_reset;
use sja_regs::{Command, Port};

/// What a write of CMR does: a command, and then a release of the first unread message (SJA1000 data sheet, 6.4.4).
#[derive(Clone, Copy, Debug, PartialEq, Eq)]
pub struct WrittenCommand {
    /// The byte of the command, without RRB; 0 where there is none.
    pub command: u8,
    /// Whether a message is released.
    pub releases: bool,
}

/// What a write of a byte to CMR does, at these registers: nothing in reset mode.
pub fn written_command(port: &Port, value: u8) -> WrittenCommand
    ensures { commands result.command ++ releases result.releases ≡ command_steps port.now (command_of value) }
{
    if is_reset(port) {
        return WrittenCommand {
            command: 0,
            releases: false,
        };
    }
    let command = Command::of(value);
    WrittenCommand {
        command: command_byte(permitted_part(port, command)),
        releases: command.rrb,
    }
}
