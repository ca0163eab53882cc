//! Steps that an activation alone has: in reset each is refused.

ghost use Rattle.std.specs.Prelude.{◌≡◌};
ghost use Rattle.sja_journal.specs.Lists.{OthersStand};
ghost use Rattle.sja_regs.specs.declared.registers.Registers.{Registers};
ghost use Rattle.sja_steps.specs.declared.step.Step.TheVariants.{Window, Release, Load, Command, Await, Sent};
ghost use Rattle.sja_driver.specs.Acting.{ActsOn};
ghost use Rattle.sja_driver.specs.AnyDrivers.{link_used};
ghost use Rattle.sja_driver.specs.Inside.Attempts.{FitsEnd, tried_of};

use super::answers::{done_answer, refusal_of, shows_released};
use super::any_driver::AnyDriver;
use super::attempt::{Attempt, passed, refused};
use super::command_fault::CommandFault;
use can_frame::{BufferView, Message};
use sja_link::{DriverEnd, LostWindow, ReleaseFault};
use sja_regs::{Port, address};
use sja_steps::{Refusal, StepAnswer};

/// Looks at the window. No port is touched.
pub(crate) fn window_step<E: DriverEnd>(driver: &mut AnyDriver, end: &mut E) -> Attempt
    requires { FitsEnd E.node end.old driver.old }
    ensures same { E.same end.old end.new }
    ensures others { OthersStand E.stands (link_used driver.old) end.old end.new }
    ensures acts { (p : Registers) → ActsOn E.same E.stands E.dry E.full end.old end.new p p Window driver.old
        driver.new (tried_of result) }
{
    let AnyDriver::InActive(driver) = driver else {
        return refused(Refusal::WrongState);
    };
    let answer = match driver.window(end) {
        Ok(Some(message)) => StepAnswer::Shown(message.copy()),
        Ok(None) => StepAnswer::NoMessage,
        Err(LostWindow) => StepAnswer::Refused(Refusal::Stopped),
    };
    Attempt::Answered(answer)
}

/// Tries a release. No port is touched.
pub(crate) fn release_step<E: DriverEnd>(driver: &mut AnyDriver, end: &mut E) -> Attempt
    requires { FitsEnd E.node end.old driver.old }
    ensures same { E.same end.old end.new }
    ensures others { OthersStand E.stands (link_used driver.old) end.old end.new }
    ensures acts { (p : Registers) → ActsOn E.same E.stands E.dry E.full end.old end.new p p Release driver.old
        driver.new (tried_of result) }
{
    let AnyDriver::InActive(driver) = driver else {
        return refused(Refusal::WrongState);
    };
    match driver.release_message(end) {
        Ok(message) => Attempt::Released(message),
        Err(ReleaseFault::Busy) => Attempt::Unmet,
        Err(ReleaseFault::Stopped) => refused(Refusal::Stopped),
        Err(ReleaseFault::Empty) => refused(Refusal::Empty),
    }
}

/// Tries a load. No link is touched.
pub(crate) fn load_step<E: DriverEnd>(
    driver: &AnyDriver,
    port: &mut Port,
    message: &Message,
) -> Attempt
    ensures { (e : E) → ActsOn E.same E.stands E.dry E.full e e port.old port.new (Load message.now) driver.now
        driver.now (tried_of result) }
{
    match driver {
        AnyDriver::InReset(_) => refused(Refusal::WrongState),
        AnyDriver::InActive(driver) => Attempt::Answered(done_answer(driver.load(port, message))),
    }
}

/// Tries a command.
#[inline(always)]
pub(crate) fn command_step<E: DriverEnd>(
    driver: &mut AnyDriver,
    end: &mut E,
    port: &mut Port,
    value: u8,
) -> Attempt
    requires { FitsEnd E.node end.old driver.old }
    ensures same { E.same end.old end.new }
    ensures others { OthersStand E.stands (link_used driver.old) end.old end.new }
    ensures acts { ActsOn E.same E.stands E.dry E.full end.old end.new port.old port.new (Command value) driver.old
        driver.new (tried_of result) }
{
    let AnyDriver::InActive(driver) = driver else {
        return refused(Refusal::WrongState);
    };
    match driver.command(end, port, value) {
        Ok(()) => passed(),
        Err(CommandFault::Reg(fault)) => refused(refusal_of(fault)),
        Err(CommandFault::Busy) => Attempt::Unmet,
    }
}

/// Passes where so many messages are at the driver's end. With the bits spent no more will come.
pub(crate) fn await_step<E: DriverEnd>(
    driver: &mut AnyDriver,
    end: &mut E,
    port: &mut Port,
    count: u8,
) -> Attempt
    requires { FitsEnd E.node end.old driver.old }
    ensures same { E.same end.old end.new }
    ensures others { OthersStand E.stands (link_used driver.old) end.old end.new }
    ensures acts { ActsOn E.same E.stands E.dry E.full end.old end.new port.old port.new (Await count) driver.old
        driver.new (tried_of result) }
{
    let AnyDriver::InActive(driver) = driver else {
        return refused(Refusal::WrongState);
    };
    // Asked before the look: what was put before the bits were spent is then seen.
    let closed = port.closed();
    if driver.look(end).is_err() {
        return refused(Refusal::Stopped);
    }
    if driver.unread().len() >= usize::from(count) {
        return passed();
    }
    if closed {
        return refused(Refusal::Closed);
    }
    Attempt::Unmet
}

/// Passes where the transmit buffer is released. With the bits spent it won't be.
pub(crate) fn sent_step<E: DriverEnd>(
    driver: &mut AnyDriver,
    end: &mut E,
    port: &mut Port,
) -> Attempt
    requires { FitsEnd E.node end.old driver.old }
    ensures same { E.same end.old end.new }
    ensures others { OthersStand E.stands (link_used driver.old) end.old end.new }
    ensures acts { ActsOn E.same E.stands E.dry E.full end.old end.new port.old port.new Sent driver.old driver.new
        (tried_of result) }
{
    let AnyDriver::InActive(driver) = driver else {
        return refused(Refusal::WrongState);
    };
    let closed = port.closed();
    let _ = driver.look(end);
    if is_released(port) {
        return passed();
    }
    if closed {
        return refused(Refusal::Closed);
    }
    Attempt::Unmet
}

/// Whether the status register shows the transmit buffer released, whatever messages are seen.
fn is_released(port: &mut Port) -> bool
    ensures value { result ≡ port.old.tbs }
    ensures unchanged { port.new ≡ port.old }
{
    let nothing = BufferView {
        first: None,
        count: 0,
    };
    let status = port.read(address::SR, &nothing);
    shows_released(status)
}
