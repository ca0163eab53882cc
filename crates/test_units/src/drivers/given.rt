//! Links of node 1, and drivers over them.

use can_frame::Message;
use sja_driver::{Active, Driver, Reset};
use sja_journal::Down;
use sja_link::{BusEnd, DequeLinks, DriverEnd};
use sja_regs::Port;
use std::alloc::Global;
use std::test::Fail;

/// The node of these tests.
pub const NODE: u8 = 1;

/// Its links for so many activations, with nothing on them.
pub fn links_for(alloc: Global, starts: u64) -> Result<DequeLinks, Fail> {
    Ok(DequeLinks::new(alloc, NODE, starts)?)
}

/// Its links with these items put on that of the first activation.
pub fn links_with(alloc: Global, items: &[Down]) -> Result<DequeLinks, Fail> {
    let mut links = links_for(alloc, 64)?;
    for item in items {
        if links.put(1, item.copy()).is_err() {
            break;
        }
    }
    Ok(links)
}

/// The driver after a start over these links; nothing where they are another node's, or the start is refused.
pub fn started<E: DriverEnd>(
    driver: Driver<Reset>,
    end: &mut E,
    port: &mut Port,
) -> Option<Driver<Active>> {
    if driver.node() != end.node() {
        return None;
    }
    driver.start(end, port).ok()
}

/// The driver after a stop over these links; nothing where they are another node's, or the stop is refused.
pub fn stopped<E: DriverEnd>(
    driver: Driver<Active>,
    end: &mut E,
    port: &mut Port,
) -> Option<Driver<Reset>> {
    if driver.link().node != end.node() {
        return None;
    }
    driver.stop(end, port).ok()
}

/// A message of three bytes with this identifier's upper part.
pub fn message(upper: u8) -> Result<Message, Fail> {
    Ok(Message::from_bytes(&[0x00, upper, 0x00])?)
}
