//! The two ends of a link of two rings, as they are made.

ghost use Rattle.std.specs.Prelude.{◌≡◌, IfOk};
ghost use Rattle.sja_journal.specs.Lists.{nothing_yet};
ghost use Rattle.sja_rings.specs.Ends.{link_of_bus, BusLists, DriverLists, OneLink, places_down, places_up};

use super::ring_bus::RingBus;
use super::ring_driver::RingDriver;
use can_frame::OutOfMemory;
use rtrb::RingBuffer;
use sja_journal::{ITEMS_DOWN, ITEMS_UP};
use sja_link::LinkId;
use std::alloc::Global;

/// The two ends of one link, with nothing on it. All its room is made here.
///
/// Error: [`OutOfMemory`] where memory was refused.
pub fn ring_pair(alloc: Global, id: LinkId) -> Result<(RingBus, RingDriver), OutOfMemory>
    ensures link { IfOk result (λ r. link_of_bus r.0 ≡ id) }
    ensures one { IfOk result (λ r. OneLink r.0 r.1) }
    ensures bus { IfOk result (λ r. BusLists r.0 nothing_yet) }
    ensures driver { IfOk result (λ r. DriverLists r.1 nothing_yet) }
    ensures down { IfOk result (λ r. places_down r.0 ≡ ITEMS_DOWN) }
    ensures up { IfOk result (λ r. places_up r.1 ≡ ITEMS_UP) }
{
    let (bus_down, driver_down) = RingBuffer::new(alloc, ITEMS_DOWN)?;
    let (driver_up, bus_up) = RingBuffer::new(alloc, ITEMS_UP)?;
    let bus = RingBus {
        id,
        down: bus_down,
        up: bus_up,
    };
    let driver = RingDriver {
        id,
        down: driver_down,
        up: driver_up,
    };
    Ok((bus, driver))
}
