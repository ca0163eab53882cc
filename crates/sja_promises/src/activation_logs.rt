//! What became of each activation of a node, as the log of a run has it.

ghost use Rattle.std.specs.Prelude.{◌≡◌, ◌+◌, ◌<◌, ◌≤◌, ◌++◌, ◌^◌, IfOk};
ghost use Rattle.sja_link.specs.Deques.{left_on};
ghost use Rattle.sja_journal.specs.Lists.{messages};
ghost use Rattle.sja_driver.specs.AnyDrivers.{opened_of};
ghost use Rattle.sja_driver.specs.LoggedDrivers.{driver_of, log_of, ended_of, IsLawful};
ghost use Rattle.sja_driver.specs.Logs.{releases_in, left_in, released_of};
ghost use Rattle.sja_promises.specs.Finishing.{held_after, activation_after, AreActivations};

use super::left_down::LeftDown;
use can_frame::{Message, OutOfMemory};
use sja_driver::{LoggedDriver, Release};
use sja_journal::Down;
use sja_link::DriverLedger;
use sja_log::ActivationLog;
use std::alloc::Global;

/// What became of each activation that a driver started, on whose links this lay. `released` and `ledgers` are all
/// that its log has of them.
///
/// Error: [`OutOfMemory`] where memory was refused.
pub(crate) fn activation_logs(
    alloc: Global,
    driver: &LoggedDriver,
    released: &[Release],
    ledgers: &[DriverLedger],
    left_down: &LeftDown,
) -> Result<Vec<ActivationLog>, OutOfMemory>
    requires lawful { IsLawful driver.now }
    requires released { released.now ≡ releases_in (log_of driver.now) }
    requires ledgers { ledgers.now ≡ left_in (log_of driver.now) }
    ensures { IfOk result (λ logs.
        AreActivations driver.now (λ a. left_on left_down.now a) (opened_of (driver_of driver.now)) logs.items) }
{
    let count = driver.activation();
    let mut logs = Vec::with_capacity(alloc, count as usize)?;
    for ended in 0..count {
        logs.push_reserved(activation_log(alloc, driver, released, ledgers, left_down, ended)?);
    }
    Ok(logs)
}

/// What became of the activation after so many, by what lay on the links of its node.
///
/// Error: [`OutOfMemory`] where memory was refused.
fn activation_log(
    alloc: Global,
    driver: &LoggedDriver,
    released: &[Release],
    ledgers: &[DriverLedger],
    left_down: &LeftDown,
    ended: u64,
) -> Result<ActivationLog, OutOfMemory>
    requires ended { ended ≤ ended_of driver.now }
    requires few { ended + 1 < 2 ^ 64 }
    requires released { released.now ≡ releases_in (log_of driver.now) }
    requires ledgers { ledgers.now ≡ left_in (log_of driver.now) }
    ensures { IfOk result (λ log. log ≡ activation_after driver.now (left_on left_down.now (ended + 1)) ended) }
{
    let released = released_in(alloc, released, ended + 1)?;
    let held = held_in(driver, ledgers, ended as usize);
    let unread = unread_on(alloc, held, left_down, ended + 1)?;
    Ok(ActivationLog::of(released, unread))
}

/// The messages that were released in an activation, counted from 1.
///
/// Error: [`OutOfMemory`] where memory was refused.
fn released_in(
    alloc: Global,
    releases: &[Release],
    activation: u64,
) -> Result<Vec<Message>, OutOfMemory>
    ensures { IfOk result (λ list. list.items ≡ released_of releases.now activation) }
{
    let mut list = Vec::new(alloc);
    for release in releases {
        if release.activation == activation {
            list.push(release.message.copy())?;
        }
    }
    Ok(list)
}

/// These messages, and then those that lay on the link of this activation.
///
/// Error: [`OutOfMemory`] where memory was refused.
fn unread_on(
    alloc: Global,
    held: &[Message],
    left_down: &LeftDown,
    activation: u64,
) -> Result<Vec<Message>, OutOfMemory>
    ensures { IfOk result (λ list. list.items ≡ held.now ++ messages (left_on left_down.now activation)) }
{
    let mut list = Vec::with_capacity(alloc, held.len())?;
    for message in held {
        list.push_reserved(message.copy());
    }
    let left = left_down.items();
    for place in 0..left.len() {
        if left[place].activation != activation {
            continue;
        }
        if let Down::Message(message) = &left[place].item {
            list.push(message.copy())?;
        }
    }
    Ok(list)
}

/// The messages that a driver holds, or held at the end, in the activation after so many.
fn held_in<'a>(driver: &'a LoggedDriver, ledgers: &'a [DriverLedger], ended: usize) -> &'a [Message]
    requires ended { ended ≤ ended_of driver.now }
    requires ledgers { ledgers.now ≡ left_in (log_of driver.now) }
    ensures { result.now ≡ held_after driver.now ended }
{
    if ended < ledgers.len() {
        ledgers[ended].unread()
    } else {
        driver.unread()
    }
}
