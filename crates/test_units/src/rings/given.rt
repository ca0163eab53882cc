//! A link of two rings with both its ends in one hand.

use crate::links::given::{LINK, message_of};
use can_frame::OutOfMemory;
use sja_journal::{Down, Up};
use sja_rings::{RingBus, RingDriver, ring_pair};
use std::alloc::Global;
use std::test::Fail;

/// Both ends of one link of two rings.
#[derive(Drop)]
pub struct Rings {
    pub bus: RingBus,
    pub driver: RingDriver,
}

impl Rings {
    /// The ends of the first activation of node 1, with nothing on the link.
    pub fn new(alloc: Global) -> Result<Rings, OutOfMemory> {
        let (bus, driver) = ring_pair(alloc, LINK)?;
        Ok(Rings { bus, driver })
    }

    /// The bus puts an item.
    pub fn put(&mut self, item: Down) -> Result<(), Down> {
        self.bus.put(item)
    }

    /// The bus puts messages of these lengths; false where one came back.
    pub fn puts(&mut self, lengths: &[u8]) -> Result<bool, Fail> {
        for length in lengths {
            if self.put(Down::Message(message_of(*length)?)).is_err() {
                return Ok(false);
            }
        }
        Ok(true)
    }

    /// The driver gives an item.
    pub fn give(&mut self, item: Up) -> Result<(), Up> {
        self.driver.give(item)
    }
}
