//! [`WriteSteps`]: the steps of a typed driver that a write is, as values.

ghost use Rattle.std.specs.Prelude.{◌≡◌, ◌≢◌, None, Some, Bool, true, false, [], ◌∷◌};
ghost use Rattle.sja_regs.specs.Commands.{command_of};
ghost use Rattle.sja_regs.specs.Registers.{is_forced};
ghost use Rattle.sja_driver.specs.AnyDrivers.{is_out};
ghost use Rattle.sja_driver.specs.LoggedDrivers.{driver_of, IsLawful};
ghost use Rattle.sja_driver.specs.CommandWrites.{command_steps};
ghost use Rattle.sja_driver.specs.ModeWrites.{mode_steps};
ghost use Rattle.sja_driver.specs.WriteLists.{ArePrompt, steps_in};
ghost use Rattle.sja_driver.specs.Writes.{write_steps};
ghost use Rattle.sja_steps.specs.declared.step.Step.TheVariants.{Start, Stop, Write};

use super::command_steps::written_command;
use super::in_reset::{is_out, is_reset};
use super::logged_driver::LoggedDriver;
use super::mode_write::{is_other_mode, is_written, mode_in, reset_byte};
use sja_regs::address::{CMR, MOD};
use sja_regs::{Mode, Port};
use sja_steps::Step;

/// The steps of a typed driver that a write is, at most three, in the order of the fields: an empty field is no step
/// (this project's own rule). A write of one step has it in `third`. None of them waits.
#[derive(Debug, PartialEq, Eq, Drop)]
pub struct WriteSteps {
    /// A step before the others: the stop of an activation that bus-off ended, or a command.
    pub first: Option<Step>,
    /// A write of other bits of MOD in reset mode.
    pub second: Option<Step>,
    /// The last one, or the only one.
    pub third: Option<Step>,
}

/// The steps that a write of a byte to an address is, for this driver at these registers.
#[inline(always)]
pub fn steps_of_write(typed: &LoggedDriver, port: &Port, address: u8, value: u8) -> WriteSteps
    requires { IsLawful typed.now }
    ensures are { steps_in result ≡ write_steps port.now (is_out (driver_of typed.now)) address value }
    ensures prompt { ArePrompt result }
{
    match address {
        MOD => mode_steps(port, is_out(typed), value),
        CMR => command_steps(port, value),
        _ => alone(Step::Write(address, value)),
    }
}

/// Whether a write is the same write of a typed driver, and nothing else: of each address but CMR, and of MOD where RM
/// is written as it is or a bus-off is asked for.
#[inline(always)]
pub fn is_typed_write(port: &Port, address: u8, value: u8) -> bool
    ensures alone { result ≡ true → (out : Bool) → write_steps port.now out address value ≡ Write address value ∷ [] }
    ensures other { result ≡ false → (out : Bool) → write_steps port.now out address value ≢ Write address value ∷ [] }
{
    match address {
        MOD => is_written(port, Mode::of(value)),
        CMR => false,
        _ => true,
    }
}

/// Whether a write of MOD is a stop of the typed driver, and nothing else: it enters reset mode.
pub fn is_stop(port: &Port, value: u8) -> bool
    ensures alone { result ≡ true → (out : Bool) → write_steps port.now out 0 value ≡ Stop ∷ [] }
    ensures other { result ≡ false → (out : Bool) → write_steps port.now out 0 value ≢ Stop ∷ [] }
{
    !is_reset(port) && Mode::of(value).rm
}

/// Whether a write of MOD is a start of the typed driver, and nothing else: it leaves reset mode, and LOM, STM and AFM
/// as they are, where no activation is to be closed first and no bus-off is asked for.
pub fn is_start(typed: &LoggedDriver, port: &Port, value: u8) -> bool
    requires { IsLawful typed.now }
    ensures alone { result ≡ true → write_steps port.now (is_out (driver_of typed.now)) 0 value ≡ Start ∷ [] }
    ensures other { result ≡ false → write_steps port.now (is_out (driver_of typed.now)) 0 value ≢ Start ∷ [] }
{
    let new = Mode::of(value);
    if !is_reset(port) || new.rm || port.is_forced() || is_out(typed) {
        return false;
    }
    !is_other_mode(mode_in(port), new)
}

/// Those of a write of MOD.
#[inline(always)]
fn mode_steps(port: &Port, out: bool, value: u8) -> WriteSteps
    ensures are { steps_in result ≡ mode_steps port.now.mode (is_forced port.now) out value }
    ensures prompt { ArePrompt result }
{
    let new = Mode::of(value);
    if is_written(port, new) {
        return alone(Step::Write(MOD, value));
    }
    if new.rm {
        return alone(Step::Stop);
    }
    WriteSteps {
        first: if out { Some(Step::Stop) } else { None },
        second: if is_other_mode(mode_in(port), new) {
            Some(Step::Write(MOD, reset_byte(new)))
        } else {
            None
        },
        third: Some(Step::Start),
    }
}

/// Those of a write of CMR.
#[inline(always)]
fn command_steps(port: &Port, value: u8) -> WriteSteps
    ensures are { steps_in result ≡ command_steps port.now (command_of value) }
    ensures prompt { ArePrompt result }
{
    let written = written_command(port, value);
    WriteSteps {
        first: if written.command == 0 {
            None
        } else {
            Some(Step::Command(written.command))
        },
        second: None,
        third: if written.releases {
            Some(Step::Release)
        } else {
            None
        },
    }
}

/// One step.
#[inline(always)]
fn alone(step: Step) -> WriteSteps
    ensures { result ≡ record { first = None; second = None; third = Some step } }
{
    WriteSteps {
        first: None,
        second: None,
        third: Some(step),
    }
}
