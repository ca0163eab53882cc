//! What of a command that is written to CMR can be done, and its byte.

ghost use Rattle.std.specs.Prelude.{◌≡◌, ◌||◌, ◌&&◌, not, false};
ghost use Rattle.sja_driver.specs.CommandWrites.{command_byte, permitted_part, may_request};

use sja_regs::bits::bit_at;
use sja_regs::letters::{AT, CDO, RRB, SRR, TR};
use sja_regs::{Command, Port};

/// CMR with TR alone.
const TRANSMIT: u8 = 1 << TR;
/// The version of the model that has no self reception.
const FIRST_VERSION: u8 = 1;

/// Of a command what can be done, but for RRB.
pub(crate) fn permitted_part(port: &Port, command: Command) -> Command
    requires { port.now.mode.rm ≡ false }
    ensures { result ≡ permitted_part port.now command }
{
    let may = command.requests() && may_request(port, command);
    Command {
        tr: command.tr && may,
        at: command.at && (may || !command.requests()),
        rrb: false,
        cdo: command.cdo,
        srr: command.srr && port.version() != FIRST_VERSION && may,
    }
}

/// Whether the request of a command can be made.
fn may_request(port: &Port, command: Command) -> bool
    requires { port.now.mode.rm ≡ false }
    ensures { result ≡ may_request port.now command }
{
    can_be_made(command, port.version() == FIRST_VERSION, is_free(port))
}

/// Whether the request of a command can be made, in version 1 (`first`) or a later one, where a transmission can be
/// requested (`free`) or not.
fn can_be_made(command: Command, first: bool, free: bool) -> bool
    ensures { result ≡ ((command.tr || not first) && free) }
{
    (command.tr || !first) && free
}

/// Whether a transmission can be requested: not in listen only mode, and where TBS is 1.
fn is_free(port: &Port) -> bool
    requires { port.now.mode.rm ≡ false }
    ensures { result ≡ (not port.now.mode.lom && port.now.tbs) }
{
    port.judge_command(TRANSMIT).is_ok()
}

/// The byte of a command.
pub(crate) fn command_byte(command: Command) -> u8
    ensures { result ≡ command_byte command }
{
    bit_at(TR, command.tr)
        + bit_at(AT, command.at)
        + bit_at(RRB, command.rrb)
        + bit_at(CDO, command.cdo)
        + bit_at(SRR, command.srr)
}
