//! Starts and stops: eight activations, 64 in version 3, and in a session without an end as many as there may be, each
//! over its own link.

use super::given::{NODE, links_for, started, stopped};
use sja_driver::{Driver, LoggedDriver, Reset, StartFault, WorkLog};
use sja_journal::{Up, WITHOUT_END, most_activations};
use sja_link::{BusEnd, DequeLinks, DriverEnd, LinkId};
use sja_regs::Port;
use sja_regs::address::{ACR0, BUFFER, MOD, RMC};
use sja_steps::{Step, StepAnswer};
use std::alloc::Global;
use std::test::Fail;

/// The driver after a start and a stop of this activation; none where one isn't taken, or its link has others than
/// them.
fn after_both(
    driver: Driver<Reset>,
    links: &mut DequeLinks,
    port: &mut Port,
    activation: u64,
) -> Option<Driver<Reset>> {
    let active = started(driver, links, port)?;
    let begun = active.activation() == activation;
    let next = stopped(active, links, port)?;
    let told = links.take(activation) == Some(Up::Start(port.config()))
        && links.take(activation) == Some(Up::Stop);
    if begun && told && links.take(activation).is_none() && next.activation() == activation {
        Some(next)
    } else {
        None
    }
}

/// The driver after so many starts and stops in this version; none where one isn't taken.
fn after_starts(links: &mut DequeLinks, port: &mut Port, count: u64) -> Option<Driver<Reset>> {
    let mut driver = Driver::new(NODE);
    if driver.activation() != 0 {
        return None;
    }
    for activation in 1..=count {
        driver = after_both(driver, links, port, activation)?;
    }
    Some(driver)
}

/// Whether a start after the last one is refused, hands the driver back, and gives nothing.
fn is_refused(driver: Driver<Reset>, links: &mut DequeLinks, port: &mut Port, last: u64) -> bool {
    let refused = match driver.start(links, port) {
        Ok(_) => false,
        Err((driver, fault)) => {
            fault == StartFault::NoActivationLeft && driver.activation() == last
        }
    };
    refused && links.first() == 1 && links.take(last + 1).is_none()
}

/// Whether so many starts are taken in this version, and none after them.
fn has_starts(alloc: Global, version: u8, last: u64) -> Result<bool, Fail> {
    let mut port = Port::new(version);
    let mut links = links_for(alloc, last + 1)?;
    match after_starts(&mut links, &mut port, last) {
        Some(driver) => Ok(is_refused(driver, &mut links, &mut port, last)),
        None => Ok(false),
    }
}

#[test]
fn the_ninth_start_is_refused_and_hands_the_driver_back(rt: HostRuntime) -> Result<(), Fail> {
    assert!(rt; has_starts(rt.alloc(), 1, 8)? && has_starts(rt.alloc(), 2, 8)?);
    Ok(())
}

#[test]
fn in_version_3_the_65th_start_is_refused(rt: HostRuntime) -> Result<(), Fail> {
    assert!(rt; has_starts(rt.alloc(), 3, 64)?);
    Ok(())
}

#[test]
fn without_an_end_starts_are_not_used_up(rt: HostRuntime) -> Result<(), Fail> {
    let mut port = Port::new(WITHOUT_END);
    let mut links = links_for(rt.alloc(), most_activations(WITHOUT_END))?;
    assert!(rt; after_starts(&mut links, &mut port, 10_000).is_some());
    Ok(())
}

#[test]
fn a_start_is_over_the_link_of_the_next_activation(rt: HostRuntime) -> Result<(), Fail> {
    let mut port = Port::new(1);
    let driver = Driver::new(NODE);
    let first = LinkId {
        node: NODE,
        activation: 1,
    };
    assert!(rt; driver.node() == NODE);
    let mut links = links_for(rt.alloc(), 8)?;
    let Some(driver) = started(driver, &mut links, &mut port) else {
        return Err(Fail::new(format_args!("start")));
    };
    assert!(rt; driver.link() == first && links.take(1) == Some(Up::Start(port.config())));
    assert!(rt; links.take(1).is_none() && links.take(2).is_none());
    assert!(rt; driver.unread().is_empty());
    Ok(())
}

/// Whether a step is done at once over these links.
fn is_done(
    driver: &mut LoggedDriver,
    links: &mut DequeLinks,
    port: &mut Port,
    step: &Step,
) -> bool {
    DriverEnd::node(links) == NODE && driver.step(links, port, step) == Some(StepAnswer::Done)
}

/// No bus is in between: it takes what was given on each link once all activations are over.
#[test]
fn a_stop_and_the_next_start_are_done_at_once(rt: HostRuntime) -> Result<(), Fail> {
    let mut port = Port::new(3);
    let mut links = links_for(rt.alloc(), 64)?;
    let mut driver = LoggedDriver::new(NODE, WorkLog::new(rt.alloc(), 3, 0, 200)?);
    for _ in 0..64 {
        assert!(rt; is_done(&mut driver, &mut links, &mut port, &Step::Start));
        assert!(rt; is_done(&mut driver, &mut links, &mut port, &Step::Stop));
    }
    for activation in 1..=64 {
        assert!(rt; links.take(activation) == Some(Up::Start(port.config())));
        assert!(rt; links.take(activation) == Some(Up::Stop) && links.take(activation).is_none());
    }
    Ok(())
}

/// Outside reset mode a write to the acceptance filter goes to the transmit buffer, and after a stop back to the
/// filter.
#[test]
fn a_driver_writes_what_its_state_shows(rt: HostRuntime) -> Result<(), Fail> {
    let mut port = Port::new(1);
    let driver = Driver::new(NODE);
    assert!(rt; driver.write(&mut port, ACR0, 0x12) == Ok(()));
    assert!(rt; driver.read(&mut port, ACR0) == Ok(0x12));
    let mut links = links_for(rt.alloc(), 8)?;
    let Some(driver) = started(driver, &mut links, &mut port) else {
        return Err(Fail::new(format_args!("start")));
    };
    assert!(rt; driver.write(&mut port, BUFFER, 0x34) == Ok(()));
    let Some(driver) = stopped(driver, &mut links, &mut port) else {
        return Err(Fail::new(format_args!("stop")));
    };
    assert!(rt; driver.read(&mut port, ACR0) == Ok(0x12));
    assert!(rt; driver.read(&mut port, RMC) == Ok(0));
    assert!(rt; driver.read(&mut port, MOD) == Ok(0x01));
    Ok(())
}
