//! [`Hand`]: the driver of a node in either state.

use can_frame::Message;
use sja_driver::{AnyDriver, CommandFault, Driver};
use sja_link::{DequeLinks, DriverEnd, ReleaseFault};
use sja_regs::{Port, RegFault};
use std::mem;

/// The driver of a node in either state. Each call is that of the driver with the links of the node. There is no answer
/// where the driver has no such call in its state or the links are of another node.
#[derive(Drop)]
pub struct Hand {
    node: u8,
    driver: AnyDriver,
}

impl Hand {
    /// The driver of this node before its first activation.
    pub fn new(node: u8) -> Hand {
        Hand {
            node,
            driver: AnyDriver::InReset(Driver::new(node)),
        }
    }

    /// The driver, to be put back.
    fn taken(&mut self) -> Hand {
        let node = self.node;
        mem::replace(self, Hand::new(node))
    }

    /// Starts the next activation.
    pub fn start(&mut self, links: &mut DequeLinks, port: &mut Port) -> Option<()> {
        let Hand { node, driver } = self.taken();
        match driver {
            AnyDriver::InReset(driver) if are_links_of(links, node) => match driver.start(
                links, port,
            ) {
                Ok(driver) => {
                    let driver = AnyDriver::InActive(driver);
                    *self = Hand { node, driver };
                    Some(())
                }
                Err(_) => None,
            },
            _ => None,
        }
    }

    /// Stops the activation.
    pub fn stop(&mut self, links: &mut DequeLinks, port: &mut Port) -> Option<()> {
        let Hand { node, driver } = self.taken();
        match driver {
            AnyDriver::InActive(driver) if are_links_of(links, node) => match driver.stop(
                links, port,
            ) {
                Ok(driver) => {
                    let driver = AnyDriver::InReset(driver);
                    *self = Hand { node, driver };
                    Some(())
                }
                Err(_) => None,
            },
            _ => None,
        }
    }

    /// Reads a register: what it was answered.
    pub fn read(
        &mut self,
        links: &mut DequeLinks,
        port: &mut Port,
        addr: u8,
    ) -> Option<Result<u8, RegFault>> {
        let Hand { node, driver } = self.taken();
        match driver {
            AnyDriver::InReset(driver) => {
                let value = driver.read(port, addr);
                let driver = AnyDriver::InReset(driver);
                *self = Hand { node, driver };
                Some(value)
            }
            AnyDriver::InActive(mut driver) if are_links_of(links, node) => {
                let value = driver.read(links, port, addr);
                let driver = AnyDriver::InActive(driver);
                *self = Hand { node, driver };
                Some(value)
            }
            AnyDriver::InActive(_) => None,
        }
    }

    /// Writes a register: what it was answered.
    pub fn write(&self, port: &mut Port, addr: u8, value: u8) -> Result<(), RegFault> {
        match &self.driver {
            AnyDriver::InReset(driver) => driver.write(port, addr, value),
            AnyDriver::InActive(driver) => driver.write(port, addr, value),
        }
    }

    /// Loads the transmit buffer, where it may be.
    pub fn load(&self, port: &mut Port, message: &Message) -> Option<()> {
        match &self.driver {
            AnyDriver::InActive(driver) => driver.load(port, message).ok(),
            AnyDriver::InReset(_) => None,
        }
    }

    /// Gives a command: what it was answered.
    pub fn command(
        &mut self,
        links: &mut DequeLinks,
        port: &mut Port,
        value: u8,
    ) -> Option<Result<(), CommandFault>> {
        let Hand { node, driver } = self.taken();
        match driver {
            AnyDriver::InActive(mut driver) if are_links_of(links, node) => {
                let done = driver.command(links, port, value);
                let driver = AnyDriver::InActive(driver);
                *self = Hand { node, driver };
                Some(done)
            }
            _ => None,
        }
    }

    /// Releases the first message: what it was answered.
    pub fn release(&mut self, links: &mut DequeLinks) -> Option<Result<u8, ReleaseFault>> {
        let Hand { node, driver } = self.taken();
        match driver {
            AnyDriver::InActive(mut driver) if are_links_of(links, node) => {
                let released = driver.release(links);
                let driver = AnyDriver::InActive(driver);
                *self = Hand { node, driver };
                Some(released)
            }
            _ => None,
        }
    }

    /// How many messages it got and didn't release.
    pub fn unread(&self) -> usize {
        match &self.driver {
            AnyDriver::InReset(_) => 0,
            AnyDriver::InActive(driver) => driver.unread().len(),
        }
    }
}

/// Whether these are the links of this node.
fn are_links_of(links: &DequeLinks, node: u8) -> bool {
    DriverEnd::node(links) == node
}
