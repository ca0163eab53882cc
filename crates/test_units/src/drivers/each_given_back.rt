//! A start, a request, a release and a stop over a link that gives one of their items back, whichever it is: nothing
//! has changed then, and the next try is taken.

use super::given::{NODE, links_with, message};
use can_node_rules::Request;
use sja_driver::{Active, CommandFault, Driver, Reset, StartFault};
use sja_journal::{Down, Up};
use sja_link::{BusEnd, DriverEnd, ReleaseFault};
use sja_regs::Port;
use sja_regs::address::{MOD, SR};
use std::alloc::Global;
use std::test::Fail;
use test_words::Returning;

/// The driver after a start, which is answered `Busy` first where it is to be.
fn started(end: &mut Returning, port: &mut Port, comes_back: bool) -> Result<Driver<Active>, Fail> {
    let mut driver = Driver::new(NODE);
    if comes_back {
        driver = kept_in_reset(driver, end, port)?;
    }
    if driver.node() != DriverEnd::node(end) {
        return Err("another node")?;
    }
    match driver.start(end, port) {
        Ok(driver) => Ok(driver),
        Err(_) => Err("no start")?,
    }
}

/// The driver after a start that comes back.
fn kept_in_reset(
    driver: Driver<Reset>,
    end: &mut Returning,
    port: &mut Port,
) -> Result<Driver<Reset>, Fail> {
    if driver.node() != DriverEnd::node(end) {
        return Err("another node")?;
    }
    match driver.start(end, port) {
        Err((driver, StartFault::Busy))
            if driver.activation() == 0 && driver.read(port, MOD) == Ok(0x01) => Ok(driver),
        _ => Err("the start was taken, or left something")?,
    }
}

/// Requests a transmission, which is answered `Busy` first where it is to be: the buffer stays released then.
fn requests(
    driver: &mut Driver<Active>,
    end: &mut Returning,
    port: &mut Port,
    comes_back: bool,
) -> Result<(), Fail> {
    if driver.link().node != DriverEnd::node(end) {
        return Err("another node")?;
    }
    if comes_back {
        let before = driver.read(end, port, SR);
        if driver.command(end, port, 0x01) != Err(CommandFault::Busy) {
            return Err("the request was taken")?;
        }
        if driver.read(end, port, SR) != before {
            return Err("the status has changed")?;
        }
    }
    match driver.command(end, port, 0x01) {
        Ok(()) => Ok(()),
        Err(_) => Err("no request")?,
    }
}

/// Releases the message, which is answered `Busy` first where it is to be: the window shows it then as before.
fn releases(
    driver: &mut Driver<Active>,
    end: &mut Returning,
    comes_back: bool,
) -> Result<(), Fail> {
    let first = message(7)?;
    if comes_back {
        if driver.link().node != DriverEnd::node(end) {
            return Err("another node")?;
        }
        if driver.release(end) != Err(ReleaseFault::Busy) {
            return Err("the credit was taken")?;
        }
        match driver.window(end) {
            Ok(Some(shown)) if *shown == first => {}
            _ => Err("the window shows something else")?,
        }
    }
    if driver.link().node != DriverEnd::node(end) {
        return Err("another node")?;
    }
    match driver.release(end) {
        Ok(3) => Ok(()),
        _ => Err("no release")?,
    }
}

/// Stops the driver, which is handed back first where it is to be.
fn stops(
    driver: Driver<Active>,
    end: &mut Returning,
    port: &mut Port,
    comes_back: bool,
) -> Result<(), Fail> {
    let mut driver = driver;
    if driver.link().node != DriverEnd::node(end) {
        return Err("another node")?;
    }
    if comes_back {
        driver = match driver.stop(end, port) {
            Err(driver) => driver,
            Ok(_) => Err("the stop was taken")?,
        };
        if driver.activation() != 1 || driver.read(end, port, MOD) != Ok(0x00) {
            return Err("the stop left something")?;
        }
    }
    match driver.stop(end, port) {
        Ok(driver) if driver.read(port, MOD) == Ok(0x01) => Ok(()),
        _ => Err("no stop")?,
    }
}

/// All four over a link with a message and one behind it, which gives an item back after so many that it took.
fn done(alloc: Global, back: u32, port: &mut Port) -> Result<Returning, Fail> {
    let put = [Down::Message(message(7)?), Down::Message(message(8)?)];
    let mut end = Returning {
        links: links_with(alloc, &put)?,
        left: Some(back),
    };
    let mut driver = started(&mut end, port, back == 0)?;
    requests(&mut driver, &mut end, port, back == 1)?;
    releases(&mut driver, &mut end, back == 2)?;
    stops(driver, &mut end, port, back == 3)?;
    Ok(end)
}

#[test]
fn whichever_item_comes_back_each_is_given_once(rt: HostRuntime) -> Result<(), Fail> {
    for back in 0..5u32 {
        let mut port = Port::new(1);
        let mut end = done(rt.alloc(), back, &mut port)?;
        assert!(rt; end.left == if back < 4 { None } else { Some(0) });
        assert!(rt;
            end.links.take(1) == Some(Up::Start(port.config())),
            "{back}"
        );
        let request = Request {
            frame: message(0)?.frame(),
            single_shot: false,
            self_receive: false,
        };
        assert!(rt; end.links.take(1) == Some(Up::Send(request)), "{back}");
        assert!(rt; end.links.take(1) == Some(Up::Credit(3)), "{back}");
        assert!(rt;
            end.links.take(1) == Some(Up::Stop) && end.links.take(1).is_none(),
            "{back}"
        );
    }
    Ok(())
}
