//! Steps that either state has: a register is read or written, or the interrupt line is waited for.

ghost use Rattle.sja_journal.specs.Lists.{OthersStand};
ghost use Rattle.sja_steps.specs.declared.step.Step.TheVariants.{Read, Write, Interrupt};
ghost use Rattle.sja_driver.specs.Acting.{ActsOn};
ghost use Rattle.sja_driver.specs.AnyDrivers.{link_used};
ghost use Rattle.sja_driver.specs.Inside.Attempts.{FitsEnd, tried_of};

use super::answers::{done_answer, value_answer};
use super::any_driver::AnyDriver;
use super::attempt::{Attempt, passed, refused};
use super::observing::observe;
use sja_link::DriverEnd;
use sja_regs::Port;
use sja_steps::Refusal;

/// Tries a read. Out of reset all that the link shows is taken in first.
#[inline(always)]
pub(crate) fn read_step<E: DriverEnd>(
    driver: &mut AnyDriver,
    end: &mut E,
    port: &mut Port,
    addr: u8,
) -> Attempt
    requires { FitsEnd E.node end.old driver.old }
    ensures same { E.same end.old end.new }
    ensures others { OthersStand E.stands (link_used driver.old) end.old end.new }
    ensures acts { ActsOn E.same E.stands E.dry E.full end.old end.new port.old port.new (Read addr) driver.old
        driver.new (tried_of result) }
{
    match driver {
        AnyDriver::InReset(driver) => Attempt::Answered(value_answer(driver.read(port, addr))),
        AnyDriver::InActive(driver) => Attempt::Answered(value_answer(driver.read(
            end, port, addr,
        ))),
    }
}

/// Tries a write. No link is touched.
#[inline(always)]
pub(crate) fn write_step<E: DriverEnd>(
    driver: &AnyDriver,
    port: &mut Port,
    addr: u8,
    value: u8,
) -> Attempt
    ensures { (e : E) → ActsOn E.same E.stands E.dry E.full e e port.old port.new (Write addr value) driver.now
        driver.now (tried_of result) }
{
    match driver {
        AnyDriver::InReset(driver) => Attempt::Answered(done_answer(driver.write(
            port, addr, value,
        ))),
        AnyDriver::InActive(driver) => {
            Attempt::Answered(done_answer(driver.write(port, addr, value)))
        }
    }
}

/// Passes where the interrupt line is active, by the registers and by all that the link shows. It clears nothing. With
/// the bits spent the line stays as it is.
pub(crate) fn interrupt_step<E: DriverEnd>(
    driver: &mut AnyDriver,
    end: &mut E,
    port: &Port,
) -> Attempt
    requires { FitsEnd E.node end.old driver.old }
    ensures same { E.same end.old end.new }
    ensures others { OthersStand E.stands (link_used driver.old) end.old end.new }
    ensures acts { ActsOn E.same E.stands E.dry E.full end.old end.new port.now port.now Interrupt driver.old driver.new
        (tried_of result) }
{
    let closed = port.closed();
    let seen = observe(driver, end);
    if port.irq(&seen) {
        return passed();
    }
    if closed {
        return refused(Refusal::Closed);
    }
    Attempt::Unmet
}
