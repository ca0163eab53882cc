//! Items that a full link gives back.

use super::given::{NODE, links_for, message, started};
use sja_driver::{Active, CommandFault, Driver, StartFault};
use sja_journal::{Down, Up};
use sja_link::{BusEnd, DequeLinks, DriverEnd, ReleaseFault};
use sja_regs::Port;
use sja_regs::address::MOD;
use std::test::Fail;

/// Gives stops on the link of the first activation until one comes back.
fn fill(links: &mut DequeLinks) {
    for _ in 0..25 {
        let _ = links.give(1, Up::Stop);
    }
}

/// What a command answers; `Busy` also for links of another node.
fn commanded(
    driver: &mut Driver<Active>,
    links: &mut DequeLinks,
    port: &mut Port,
) -> Result<(), CommandFault> {
    if driver.link().node != DriverEnd::node(links) {
        return Err(CommandFault::Busy);
    }
    driver.command(links, port, 0x01)
}

#[test]
fn a_start_that_comes_back_changes_nothing(rt: HostRuntime) -> Result<(), Fail> {
    let mut port = Port::new(1);
    let mut links = links_for(rt.alloc(), 8)?;
    fill(&mut links);
    let driver = Driver::new(NODE);
    if driver.node() != DriverEnd::node(&links) {
        return Err(Fail::new(format_args!("another node")));
    }
    let Err((driver, fault)) = driver.start(&mut links, &mut port) else {
        return Err(Fail::new(format_args!("a start over a full link")));
    };
    assert!(rt; fault == StartFault::Busy && driver.activation() == 0);
    assert!(rt; driver.read(&mut port, MOD) == Ok(0x01));
    assert!(rt; links.take(1) == Some(Up::Stop));
    assert!(rt; started(driver, &mut links, &mut port).is_some());
    Ok(())
}

#[test]
fn a_stop_that_comes_back_leaves_the_driver_active(rt: HostRuntime) -> Result<(), Fail> {
    let mut port = Port::new(1);
    let mut links = links_for(rt.alloc(), 8)?;
    let Some(driver) = started(Driver::new(NODE), &mut links, &mut port) else {
        return Err(Fail::new(format_args!("start")));
    };
    fill(&mut links);
    if driver.link().node != DriverEnd::node(&links) {
        return Err(Fail::new(format_args!("another node")));
    }
    let Err(driver) = driver.stop(&mut links, &mut port) else {
        return Err(Fail::new(format_args!("a stop over a full link")));
    };
    assert!(rt; driver.activation() == 1);
    assert!(rt; driver.load(&mut port, &message(1)?) == Ok(()));
    Ok(())
}

#[test]
fn a_request_that_comes_back_leaves_the_transmit_buffer_released(
    rt: HostRuntime,
) -> Result<(), Fail> {
    let mut port = Port::new(1);
    let mut links = links_for(rt.alloc(), 8)?;
    let Some(mut driver) = started(Driver::new(NODE), &mut links, &mut port) else {
        return Err(Fail::new(format_args!("start")));
    };
    fill(&mut links);
    assert!(rt; commanded(&mut driver, &mut links, &mut port) == Err(CommandFault::Busy));
    assert!(rt; driver.load(&mut port, &message(1)?) == Ok(()));
    assert!(rt; links.take(1) == Some(Up::Start(port.config())));
    assert!(rt; commanded(&mut driver, &mut links, &mut port) == Ok(()));
    assert!(rt; driver.load(&mut port, &message(1)?).is_err());
    Ok(())
}

#[test]
fn a_credit_that_comes_back_keeps_the_message(rt: HostRuntime) -> Result<(), Fail> {
    let mut port = Port::new(1);
    let mut links = links_for(rt.alloc(), 8)?;
    let Some(mut driver) = started(Driver::new(NODE), &mut links, &mut port) else {
        return Err(Fail::new(format_args!("start")));
    };
    fill(&mut links);
    assert!(rt; links.put(1, Down::Message(message(7)?)).is_ok());
    if driver.link().node != DriverEnd::node(&links) {
        return Err(Fail::new(format_args!("another node")));
    }
    assert!(rt; driver.release(&mut links) == Err(ReleaseFault::Busy));
    assert!(rt; driver.unread() == [message(7)?].as_slice());
    Ok(())
}
