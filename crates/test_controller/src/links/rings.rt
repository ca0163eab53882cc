//! [`Rings`]: the links of a node, each of two rings.

use super::link::Link;
use super::queue_link::LINK;
use super::words::{push_down, push_up};
use can_frame::{BufferView, Message};
use sja_journal::{Down, Up, Verdict};
use sja_link::{
    BadCredit, BusEnd, BusLedger, Busy, DriverEnd, DriverLedger, LostWindow, ReleaseFault,
};
use sja_rings::{NodeBus, NodeDriver, end_bus, end_driver, node_pair, settle};
use std::alloc::{AllocError, Global};

/// Both ends of a node's links of two rings, the activation whose link calls are on, and the ledgers of the first.
#[derive(Drop)]
pub struct Rings {
    bus: NodeBus,
    driver: NodeDriver,
    at: u64,
    judge: BusLedger,
    reader: DriverLedger,
}

impl Rings {
    /// The ends of new links, with nothing on them.
    pub fn new(alloc: Global) -> Result<Rings, AllocError> {
        let (bus, driver) = node_pair(alloc, LINK.node).map_err(|_| AllocError)?;
        Ok(Rings {
            bus,
            driver,
            at: LINK.activation,
            judge: BusLedger::new(LINK),
            reader: DriverLedger::new(LINK),
        })
    }
}

/// What is judged of a message.
fn judged(
    ledger: &mut BusLedger,
    bus: &mut NodeBus,
    message: Message,
) -> Option<Result<Verdict, Busy>> {
    if bus.node() != ledger.id().node {
        return None;
    }
    Some(ledger.accept(bus, message))
}

/// What is collected.
fn collected(ledger: &mut BusLedger, bus: &mut NodeBus) -> Option<Result<Option<Up>, BadCredit>> {
    if bus.node() != ledger.id().node {
        return None;
    }
    Some(ledger.collect(bus))
}

/// Whether bus-off is put.
fn off(ledger: &mut BusLedger, bus: &mut NodeBus) -> Option<Result<(), Busy>> {
    if bus.node() != ledger.id().node {
        return None;
    }
    Some(ledger.off(bus))
}

/// Whether the window is there.
fn look(ledger: &mut DriverLedger, driver: &mut NodeDriver) -> Option<Result<(), LostWindow>> {
    if driver.node() != ledger.id().node {
        return None;
    }
    Some(ledger.look(driver))
}

/// What is released.
fn released(
    ledger: &mut DriverLedger,
    driver: &mut NodeDriver,
) -> Option<Result<u8, ReleaseFault>> {
    if driver.node() != ledger.id().node {
        return None;
    }
    Some(ledger.release(driver))
}

impl Link for Rings {
    fn put(&mut self, item: Down) -> Result<(), Down> {
        self.bus.put(self.at, item)
    }

    fn take(&mut self) -> Option<Up> {
        self.bus.take(self.at)
    }

    fn give(&mut self, item: Up) -> Result<(), Up> {
        self.driver.give(self.at, item)
    }

    fn get(&mut self) -> Option<Down> {
        self.driver.get(self.at)
    }

    fn returns(&mut self, _after: u32) {}

    fn of(&mut self, activation: u64) {
        self.at = activation;
    }

    fn left(&self, _alloc: Global, text: &mut String) -> Result<(), AllocError> {
        text.push_str(" ?")
    }

    fn judge(&mut self, message: Message) -> Option<Result<Verdict, Busy>> {
        judged(&mut self.judge, &mut self.bus, message)
    }

    fn collect(&mut self) -> Option<Result<Option<Up>, BadCredit>> {
        collected(&mut self.judge, &mut self.bus)
    }

    fn off(&mut self) -> Option<Result<(), Busy>> {
        off(&mut self.judge, &mut self.bus)
    }

    fn free(&self) -> u8 {
        self.judge.free()
    }

    fn look(&mut self) -> Option<Result<(), LostWindow>> {
        look(&mut self.reader, &mut self.driver)
    }

    fn window(&mut self) -> Option<Result<Option<Message>, LostWindow>> {
        match look(&mut self.reader, &mut self.driver)? {
            Ok(()) => Some(Ok(self.reader.first().map(Message::copy))),
            Err(stopped) => Some(Err(stopped)),
        }
    }

    fn release(&mut self) -> Option<Result<u8, ReleaseFault>> {
        released(&mut self.reader, &mut self.driver)
    }

    fn unread(&self) -> &[Message] {
        self.reader.unread()
    }

    fn seen(&self) -> BufferView {
        self.reader.seen()
    }

    fn settle(self, alloc: Global, text: &mut String) -> Result<(), AllocError> {
        let Rings { bus, driver, .. } = self;
        let mut buses = bus.into_rings().into_iter();
        let mut drivers = driver.into_rings().into_iter();
        let (Some(bus), Some(driver)) = (buses.next(), drivers.next()) else {
            return text.push_str(" ?");
        };
        let Ok(left) = settle(end_bus(bus), end_driver(driver)) else {
            return text.push_str(" unsettled");
        };
        text.push_str(" down")?;
        for item in left.down.as_slice() {
            push_down(alloc, text, item)?;
        }
        text.push_str(" up")?;
        for item in left.up.as_slice() {
            push_up(alloc, text, item)?;
        }
        Ok(())
    }
}
