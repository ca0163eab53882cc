//! A script done over the links of a driver.

use sja_driver::{LoggedDriver, WorkLog};
use sja_journal::{Down, ITEMS_UP, most_activations};
use sja_link::{BusEnd, DequeLinks, DriverEnd};
use sja_regs::Port;
use sja_steps::{Step, StepAnswer};
use std::alloc::{AllocError, Global};

/// The node of the driver.
const NODE: u8 = 1;

/// The driver after these steps, each tried once after 7 bits, over the links of the node with these items put on the
/// first; where `apart`, windows and releases by the calls that see no port. After each step the bus takes what was
/// given.
pub fn driven(
    alloc: Global,
    port: &mut Port,
    items: &[Down],
    steps: &[Step],
    apart: bool,
) -> Result<LoggedDriver, AllocError> {
    let mut links = links_with(alloc, most_activations(port.version()), items)?;
    let count = steps.len() as u64;
    let Ok(log) = WorkLog::new(alloc, port.version(), count, count) else {
        return Err(AllocError);
    };
    let mut driver = LoggedDriver::new(NODE, log);
    for step in steps {
        if let Some(answer) = tried(&mut driver, &mut links, port, step, apart) {
            let kept = driver.kept();
            driver.enter(answer, 7, kept);
        }
        take_all(&mut links, driver.activation());
    }
    Ok(driver)
}

/// The links of the node, with these items put on that of the first activation until one comes back.
fn links_with(alloc: Global, starts: u64, items: &[Down]) -> Result<DequeLinks, AllocError> {
    let Ok(mut links) = DequeLinks::new(alloc, NODE, starts) else {
        return Err(AllocError);
    };
    for item in items {
        if links.put(1, item.copy()).is_err() {
            break;
        }
    }
    Ok(links)
}

/// Takes all that lies on the link of an activation.
fn take_all(links: &mut DequeLinks, activation: u64) {
    for _ in 0..ITEMS_UP {
        let _ = links.take(activation);
    }
}

/// Tries a step over the links; where `apart`, a window and a release by the calls that see no port.
fn tried<E: DriverEnd>(
    driver: &mut LoggedDriver,
    end: &mut E,
    port: &mut Port,
    step: &Step,
    apart: bool,
) -> Option<StepAnswer> {
    match step {
        Step::Window if apart => driver.step_window(end),
        Step::Release if apart => driver.step_release(end),
        _ => driver.step(end, port, step),
    }
}
