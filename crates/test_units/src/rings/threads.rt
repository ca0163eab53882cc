//! The two ends of a link in two threads: what was got and then is left is what was put, whenever either thread ran,
//! and the same upward.

use super::given::Rings;
use can_frame::Message;
use sja_journal::{Down, Up};
use sja_rings::{RingBus, RingDriver, end_bus, end_driver, settle};
use std::test::Fail;
use std::thread::{join, yield_now};

/// How many items each end sends, and how often it tries.
const MANY: u32 = 200;

const TRIES: u32 = 20_000;

/// The item that is put after so many: bus-off after every second message.
fn down(before: u32) -> Down {
    if before % 3 == 2 {
        Down::Off
    } else {
        Down::Message(Message::default())
    }
}

/// The item that is given after so many.
fn up(before: u32) -> Up {
    Up::Credit((before % 200) as u8)
}

/// How many items an end sent, how many it received, and whether each of those was the one whose turn it was.
#[derive(Clone, Copy)]
struct Count {
    sent: u32,
    received: u32,
    in_order: bool,
}

const NONE: Count = Count {
    sent: 0,
    received: 0,
    in_order: true,
};

/// The bus puts its next item, if it hasn't put all, and takes what is shown.
fn bus_turn(bus: &mut RingBus, count: Count) -> Count {
    let sends = count.sent < MANY && bus.put(down(count.sent)).is_ok();
    let taken = bus.take();
    counted(count, sends, taken.map(|item| item == up(count.received)))
}

/// The driver gives its next item, if it hasn't given all, and gets what is shown.
fn driver_turn(driver: &mut RingDriver, count: Count) -> Count {
    let sends = count.sent < MANY && driver.give(up(count.sent)).is_ok();
    let got = driver.get();
    counted(count, sends, got.map(|item| item == down(count.received)))
}

/// The count with what one turn sent and received.
fn counted(count: Count, sends: bool, received: Option<bool>) -> Count {
    Count {
        sent: count.sent.saturating_add(u32::from(sends)),
        received: count.received.saturating_add(u32::from(received.is_some())),
        in_order: count.in_order && received != Some(false),
    }
}

/// The bus's thread.
fn bus_runs(mut bus: RingBus) -> (RingBus, Count) {
    let mut count = NONE;
    for _ in 0..TRIES {
        count = bus_turn(&mut bus, count);
        yield_now();
    }
    (bus, count)
}

/// The driver's thread.
fn driver_runs(mut driver: RingDriver) -> (RingDriver, Count) {
    let mut count = NONE;
    for _ in 0..TRIES {
        count = driver_turn(&mut driver, count);
        yield_now();
    }
    (driver, count)
}

#[test]
fn what_was_got_and_is_left_is_what_was_put(rt: HostRuntime) -> Result<(), Fail> {
    let Rings { bus, driver } = Rings::new(rt.alloc())?;
    let ((bus, there), (driver, here)) = join(
        &rt,
        move || -> (RingBus, Count) { bus_runs(bus) },
        move || -> (RingDriver, Count) { driver_runs(driver) },
    );
    assert!(rt; there.in_order && here.in_order);
    let left = settle(end_bus(bus), end_driver(driver))?;
    for (item, before) in left.down.as_slice().iter().zip(here.received..) {
        assert!(rt; *item == down(before));
    }
    for (item, before) in left.up.as_slice().iter().zip(there.received..) {
        assert!(rt; *item == up(before));
    }
    assert!(rt; here.received as usize + left.down.len() == there.sent as usize);
    assert!(rt; there.received as usize + left.up.len() == here.sent as usize);
    Ok(())
}
