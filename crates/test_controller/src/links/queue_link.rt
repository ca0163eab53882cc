//! [`QueueLink`]: the links of a node, of two queues each.

use super::answers::push_said;
use super::link::Link;
use super::words::push_down;
use can_frame::{BufferView, Message};
use sja_journal::{Down, Up, Verdict};
use sja_link::{
    BadCredit, BusEnd, BusLedger, Busy, DequeLinks, DriverEnd, DriverLedger, LinkId, LostWindow,
    ReleaseFault,
};
use std::alloc::{AllocError, Global};
use test_words::Returning;

/// The first activation of node 1.
pub const LINK: LinkId = LinkId {
    node: 1,
    activation: 1,
};

/// The links of a node of two queues each, the activation whose link calls are on, and the ledgers of the first.
#[derive(Drop)]
pub struct QueueLink {
    end: Returning,
    at: u64,
    bus: BusLedger,
    driver: DriverLedger,
}

impl QueueLink {
    /// Those for so many activations, with nothing on them. Calls are on the first.
    pub fn new(alloc: Global, starts: u64) -> Result<QueueLink, AllocError> {
        let links = DequeLinks::new(alloc, LINK.node, starts).map_err(|_| AllocError)?;
        Ok(QueueLink {
            end: Returning { links, left: None },
            at: LINK.activation,
            bus: BusLedger::new(LINK),
            driver: DriverLedger::new(LINK),
        })
    }
}

impl Link for QueueLink {
    fn put(&mut self, item: Down) -> Result<(), Down> {
        self.end.links.put(self.at, item)
    }

    fn take(&mut self) -> Option<Up> {
        self.end.links.take(self.at)
    }

    fn give(&mut self, item: Up) -> Result<(), Up> {
        self.end.links.give(self.at, item)
    }

    fn get(&mut self) -> Option<Down> {
        self.end.links.get(self.at)
    }

    fn returns(&mut self, after: u32) {
        self.end.left = Some(after);
    }

    fn of(&mut self, activation: u64) {
        self.at = activation;
    }

    fn left(&self, alloc: Global, text: &mut String) -> Result<(), AllocError> {
        for item in self.end.links.older().map_err(|_| AllocError)? {
            push_said(alloc, text, item.activation)?;
            text.push_str(":")?;
            push_down(alloc, text, &item.item)?;
        }
        Ok(())
    }

    fn judge(&mut self, message: Message) -> Option<Result<Verdict, Busy>> {
        if BusEnd::node(&self.end) != self.bus.id().node {
            return None;
        }
        Some(self.bus.accept(&mut self.end, message))
    }

    fn collect(&mut self) -> Option<Result<Option<Up>, BadCredit>> {
        if BusEnd::node(&self.end) != self.bus.id().node {
            return None;
        }
        Some(self.bus.collect(&mut self.end))
    }

    fn off(&mut self) -> Option<Result<(), Busy>> {
        if BusEnd::node(&self.end) != self.bus.id().node {
            return None;
        }
        Some(self.bus.off(&mut self.end))
    }

    fn free(&self) -> u8 {
        self.bus.free()
    }

    fn look(&mut self) -> Option<Result<(), LostWindow>> {
        if DriverEnd::node(&self.end) != self.driver.id().node {
            return None;
        }
        Some(self.driver.look(&mut self.end))
    }

    fn window(&mut self) -> Option<Result<Option<Message>, LostWindow>> {
        if DriverEnd::node(&self.end) != self.driver.id().node {
            return None;
        }
        match self.driver.window(&mut self.end) {
            Ok(Some(message)) => Some(Ok(Some(message.copy()))),
            Ok(None) => Some(Ok(None)),
            Err(stopped) => Some(Err(stopped)),
        }
    }

    fn release(&mut self) -> Option<Result<u8, ReleaseFault>> {
        if DriverEnd::node(&self.end) != self.driver.id().node {
            return None;
        }
        Some(self.driver.release(&mut self.end))
    }

    fn unread(&self) -> &[Message] {
        self.driver.unread()
    }

    fn seen(&self) -> BufferView {
        self.driver.seen()
    }

    fn settle(self, alloc: Global, text: &mut String) -> Result<(), AllocError> {
        let _ = alloc;
        text.push_str(" ?")
    }
}
