//! What an active driver sees of its link.

use super::endless::Endless;
use super::given::{NODE, links_with, message, started};
use can_frame::Message;
use sja_driver::{Active, Driver};
use sja_journal::{Down, Up};
use sja_link::{BusEnd, DriverEnd, LostWindow, ReleaseFault};
use sja_regs::address::{BUFFER, CMR, RMC, SR};
use sja_regs::{Port, RegFault};
use std::test::Fail;

/// A copy of what the window shows; `LostWindow` also for links of another node.
fn shown<E: DriverEnd>(
    driver: &mut Driver<Active>,
    end: &mut E,
) -> Result<Option<Message>, LostWindow> {
    if driver.link().node != end.node() {
        return Err(LostWindow);
    }
    match driver.window(end)? {
        Some(message) => Ok(Some(message.copy())),
        None => Ok(None),
    }
}

/// What a release answers; `Busy` also for links of another node.
fn released<E: DriverEnd>(driver: &mut Driver<Active>, end: &mut E) -> Result<u8, ReleaseFault> {
    if driver.link().node != end.node() {
        return Err(ReleaseFault::Busy);
    }
    driver.release(end)
}

/// What a read answers; `NoRegister` also for links of another node.
fn read<E: DriverEnd>(
    driver: &mut Driver<Active>,
    end: &mut E,
    port: &mut Port,
    addr: u8,
) -> Result<u8, RegFault> {
    if driver.link().node != end.node() {
        return Err(RegFault::NoRegister);
    }
    driver.read(end, port, addr)
}

#[test]
fn messages_are_shown_and_released_in_order(rt: HostRuntime) -> Result<(), Fail> {
    let mut port = Port::new(1);
    let put = [Down::Message(message(1)?), Down::Message(message(2)?)];
    let mut links = links_with(rt.alloc(), &put)?;
    let Some(mut driver) = started(Driver::new(NODE), &mut links, &mut port) else {
        return Err(Fail::new(format_args!("start")));
    };
    assert!(rt; links.take(1) == Some(Up::Start(port.config())));
    assert!(rt; shown(&mut driver, &mut links) == Ok(Some(message(1)?)));
    assert!(rt; shown(&mut driver, &mut links) == Ok(Some(message(1)?)));
    assert!(rt; links.take(1).is_none());
    assert!(rt; read(&mut driver, &mut links, &mut port, RMC) == Ok(2));
    assert!(rt; read(&mut driver, &mut links, &mut port, BUFFER + 1) == Ok(1));
    assert!(rt; released(&mut driver, &mut links) == Ok(3));
    assert!(rt; links.take(1) == Some(Up::Credit(3)) && links.take(1).is_none());
    assert!(rt; driver.unread() == [message(2)?].as_slice());
    assert!(rt; released(&mut driver, &mut links) == Ok(3));
    assert!(rt; shown(&mut driver, &mut links) == Ok(None));
    assert!(rt; released(&mut driver, &mut links) == Err(ReleaseFault::Empty));
    assert!(rt; read(&mut driver, &mut links, &mut port, SR) == Ok(0x3c));
    Ok(())
}

#[test]
fn a_read_takes_in_what_the_link_shows(rt: HostRuntime) -> Result<(), Fail> {
    let mut port = Port::new(1);
    let put = [Down::Message(message(5)?)];
    let mut links = links_with(rt.alloc(), &put)?;
    let Some(mut driver) = started(Driver::new(NODE), &mut links, &mut port) else {
        return Err(Fail::new(format_args!("start")));
    };
    assert!(rt; driver.unread().is_empty());
    assert!(rt; read(&mut driver, &mut links, &mut port, SR) == Ok(0x3d));
    assert!(rt; driver.unread().len() == 1);
    assert!(rt; read(&mut driver, &mut links, &mut port, CMR) == Err(RegFault::NoRegister));
    Ok(())
}

#[test]
fn after_bus_off_the_window_is_gone(rt: HostRuntime) -> Result<(), Fail> {
    let mut port = Port::new(1);
    let put = [Down::Message(message(1)?), Down::Off];
    let mut links = links_with(rt.alloc(), &put)?;
    let Some(mut driver) = started(Driver::new(NODE), &mut links, &mut port) else {
        return Err(Fail::new(format_args!("start")));
    };
    assert!(rt; shown(&mut driver, &mut links) == Err(LostWindow));
    assert!(rt; released(&mut driver, &mut links) == Err(ReleaseFault::Stopped));
    assert!(rt; read(&mut driver, &mut links, &mut port, RMC) == Ok(0));
    assert!(rt; driver.unread() == [message(1)?].as_slice());
    assert!(rt; links.take(1) == Some(Up::Start(port.config())) && links.take(1).is_none());
    Ok(())
}

/// At most 22 messages are taken in, and then the call returns.
#[test]
fn a_link_without_end_fills_the_ledger(rt: HostRuntime) -> Result<(), Fail> {
    let mut port = Port::new(1);
    let mut end = Endless { node: NODE };
    let Some(mut driver) = started(Driver::new(NODE), &mut end, &mut port) else {
        return Err(Fail::new(format_args!("start")));
    };
    assert!(rt; shown(&mut driver, &mut end) == Ok(Some(Message::default())));
    assert!(rt; driver.unread().len() == 22);
    assert!(rt; read(&mut driver, &mut end, &mut port, RMC) == Ok(22));
    assert!(rt; released(&mut driver, &mut end) == Ok(3));
    assert!(rt; driver.unread().len() == 21);
    assert!(rt; read(&mut driver, &mut end, &mut port, RMC) == Ok(22));
    Ok(())
}
