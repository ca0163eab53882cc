//! The last act of each end of a link.

ghost use Rattle.sja_journal.specs.Lists.{Lists};
ghost use Rattle.sja_rings.specs.Ends.{BusLists, DriverLists};
ghost use Rattle.sja_rings.specs.Ended.{EndsBus, EndsDriver, EndedBusLists, EndedDriverLists};

use super::ended_bus::EndedBus;
use super::ended_driver::EndedDriver;
use super::ring_bus::RingBus;
use super::ring_driver::RingDriver;

/// The bus's last act on a link: it puts nothing any more.
pub fn end_bus(bus: RingBus) -> EndedBus
    ensures ends { EndsBus bus result }
    ensures lists { (l : Lists) → BusLists bus l → EndedBusLists result l }
{
    let RingBus { id: _, down, up } = bus;
    EndedBus {
        note: down.finish(),
        up,
    }
}

/// The driver's last act on a link: it gives nothing any more.
pub fn end_driver(driver: RingDriver) -> EndedDriver
    ensures ends { EndsDriver driver result }
    ensures lists { (l : Lists) → DriverLists driver l → EndedDriverLists result l }
{
    let RingDriver { id: _, down, up } = driver;
    EndedDriver {
        down,
        note: up.finish(),
    }
}
