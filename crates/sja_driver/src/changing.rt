//! Steps that change the state of a driver: start and stop.

ghost use Rattle.sja_journal.specs.Lists.{OthersStand};
ghost use Rattle.sja_steps.specs.declared.step.Step.TheVariants.{Start, Stop};
ghost use Rattle.sja_driver.specs.Acting.{ActsOn};
ghost use Rattle.sja_driver.specs.AnyDrivers.{link_used};
ghost use Rattle.sja_driver.specs.Inside.Attempts.{FitsEnd, tried_of, stopped_by};

use super::active::Active;
use super::any_driver::AnyDriver;
use super::attempt::{Attempt, passed, refused};
use super::driver::Driver;
use super::reset::{Reset, none_left};
use sja_journal::Up;
use sja_link::{DriverEnd, DriverLedger, LinkId};
use sja_regs::Port;
use sja_steps::Refusal;
use std::mem;

/// Tries a start. In an activation it is refused.
pub(crate) fn start_step<E: DriverEnd>(
    driver: &mut AnyDriver,
    end: &mut E,
    port: &mut Port,
) -> Attempt
    requires { FitsEnd E.node end.old driver.old }
    ensures acts { ActsOn E.same E.stands E.dry E.full end.old end.new port.old port.new Start driver.old driver.new
        (tried_of result) }
    ensures same { E.same end.old end.new }
    ensures others { OthersStand E.stands (link_used driver.old) end.old end.new }
{
    let AnyDriver::InReset(reset) = &*driver else {
        return refused(Refusal::WrongState);
    };
    let node = reset.state.node;
    let activation = reset.state.activation;
    if none_left(activation, port.version()) {
        return refused(Refusal::NoActivationLeft);
    }
    let id = LinkId {
        node,
        activation: activation + 1,
    };
    if end.give(id.activation, Up::Start(port.config())).is_err() {
        return Attempt::Unmet;
    }
    port.leave_reset();
    *driver = AnyDriver::InActive(Driver {
        state: Active {
            ledger: DriverLedger::new(id),
        },
    });
    passed()
}

/// Tries a stop, and hands out the ledger of the activation that it ended. In reset it is refused.
pub(crate) fn stop_step<E: DriverEnd>(
    driver: &mut AnyDriver,
    end: &mut E,
    port: &mut Port,
) -> Result<DriverLedger, Attempt>
    requires { FitsEnd E.node end.old driver.old }
    ensures same { E.same end.old end.new }
    ensures others { OthersStand E.stands (link_used driver.old) end.old end.new }
    ensures acts { ActsOn E.same E.stands E.dry E.full end.old end.new port.old port.new Stop driver.old driver.new
        (stopped_by result) }
{
    let AnyDriver::InActive(active) = &*driver else {
        return Err(refused(Refusal::WrongState));
    };
    let LinkId { node, activation } = active.link();
    if end.give(activation, Up::Stop).is_err() {
        return Err(Attempt::Unmet);
    }
    port.enter_reset();
    let reset = Driver {
        state: Reset { node, activation },
    };
    match mem::replace(driver, AnyDriver::InReset(reset)) {
        AnyDriver::InActive(
            Driver {
                state: Active { ledger },
            },
        ) => Ok(ledger),
        AnyDriver::InReset(_) => unreachable!(),
    }
}
