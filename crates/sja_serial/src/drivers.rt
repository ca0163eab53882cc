//! The drivers of a run, as it begins.

ghost use Rattle.std.specs.Prelude.{◌≡◌, ◌≤◌, length, map, IfOk};
ghost use Rattle.sja_driver.specs.StepRuns.{most_acts};
ghost use Rattle.sja_promises.specs.NewDrivers.{AreNew};

use can_frame::OutOfMemory;
use sja_driver::{LoggedDriver, WorkLog, most_acts};
use std::alloc::Global;

/// The first version in which reads and writes are those of addresses and bytes.
pub(crate) const FIRST_BY_BYTES: u8 = 3;

/// How many acts the steps of each driver may be, in this version.
///
/// Error: [`OutOfMemory`] where memory was refused, or where those of one driver are more than 64 bits count.
pub(crate) fn acts_for(alloc: Global, version: u8, steps: &[u64]) -> Result<Vec<u64>, OutOfMemory>
    ensures { IfOk result (λ acts. acts.items ≡ map (most_acts version) steps.now) }
{
    let mut acts = Vec::with_capacity(alloc, steps.len())?;
    for many in steps {
        let Some(most) = most_acts(version, *many) else {
            return Err(OutOfMemory);
        };
        acts.push_reserved(most);
    }
    Ok(acts)
}

/// The drivers of all nodes, each with an empty log that has room for so many steps, for what so many acts come to,
/// and for all activations of a node in this version.
///
/// Error: [`OutOfMemory`] where memory was refused.
pub(crate) fn new_drivers(
    alloc: Global,
    version: u8,
    steps: &[u64],
    acts: &[u64],
) -> Result<Vec<LoggedDriver>, OutOfMemory>
    requires few { length steps.now ≤ 8 }
    requires many { length acts.now ≡ length steps.now }
    ensures count { IfOk result (λ drivers. length drivers.items ≡ length steps.now) }
    ensures new { IfOk result (λ drivers. AreNew version steps.now acts.now (length steps.now)
        drivers.items) }
{
    let mut drivers = Vec::with_capacity(alloc, steps.len())?;
    for node in 0..steps.len() {
        let log = WorkLog::new(alloc, version, steps[node], acts[node])?;
        drivers.push_reserved(LoggedDriver::new(node as u8, log));
    }
    Ok(drivers)
}
