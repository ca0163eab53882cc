//! The ends of a link of two rings: their number; and an end whose other end is gone: its ring gives no closing note,
//! and the link can't be settled.

use super::given::Rings;
use crate::links::given::LINK;
use sja_journal::{Down, Up};
use sja_link::LinkId;
use sja_rings::{EndedBus, EndedDriver, MissingNote, end_bus, end_driver, settle};
use std::alloc::Global;
use std::test::Fail;

/// A bus's end after its last act. The driver's end was dropped before.
fn bus_alone(alloc: Global) -> Result<EndedBus, Fail> {
    let Rings { bus, driver } = Rings::new(alloc)?;
    drop(driver);
    Ok(end_bus(bus))
}

/// A driver's end after its last act. The bus's end was dropped before.
fn driver_alone(alloc: Global) -> Result<EndedDriver, Fail> {
    let Rings { bus, driver } = Rings::new(alloc)?;
    drop(bus);
    Ok(end_driver(driver))
}

#[test]
fn both_ends_have_the_number_of_the_link(rt: HostRuntime) -> Result<(), Fail> {
    let rings = Rings::new(rt.alloc())?;
    let number = LinkId {
        node: 1,
        activation: 1,
    };
    assert!(rt; rings.bus.id() == number && rings.driver.id() == LINK);
    Ok(())
}

/// It is whether a note is there that is asked first: without one the two ends may be of any links.
#[test]
fn without_a_note_nothing_is_settled(rt: HostRuntime) -> Result<(), Fail> {
    let bus = bus_alone(rt.alloc())?;
    let driver = driver_alone(rt.alloc())?;
    assert!(rt; settle(bus, driver) == Err(MissingNote));
    Ok(())
}

/// What lies on a ring goes with its ends, and the end that is left may still put and give.
#[test]
fn an_end_that_is_left_alone_still_works(rt: HostRuntime) -> Result<(), Fail> {
    let mut rings = Rings::new(rt.alloc())?;
    assert!(rt; rings.puts(&[3, 13])? && rings.give(Up::Credit(3)).is_ok());
    let Rings { mut bus, driver } = rings;
    drop(driver);
    assert!(rt; bus.take() == Some(Up::Credit(3)) && bus.take().is_none());
    for _ in 0..20 {
        assert!(rt; bus.put(Down::Off).is_ok());
    }
    assert!(rt; bus.put(Down::Off) == Err(Down::Off));
    Ok(())
}
