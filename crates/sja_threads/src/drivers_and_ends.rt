//! [`DriversAndEnds`]: what the drivers of all nodes handed back, drivers and ends apart.

ghost use Rattle.std.specs.Prelude.{◌≡◌, IfOk};
ghost use Rattle.sja_threads.specs.Inside.Settling.{all_drivers, all_ends};

use super::handover::Handover;
use can_frame::OutOfMemory;
use sja_driver::LoggedDriver;
use sja_rings::NodeDriver;
use std::alloc::Global;

/// What the drivers of all nodes handed back, drivers and ends apart.
#[derive(Drop)]
pub(crate) struct DriversAndEnds {
    /// The drivers, by node.
    pub(crate) drivers: Vec<LoggedDriver>,
    /// Their ends of the nodes' links, by node.
    pub(crate) ends: Vec<NodeDriver>,
}

impl DriversAndEnds {
    /// The drivers and the ends of these.
    ///
    /// Error: [`OutOfMemory`] where memory was refused.
    pub(crate) fn of(
        alloc: Global,
        workeds: Vec<Handover<NodeDriver>>,
    ) -> Result<DriversAndEnds, OutOfMemory>
        ensures drivers { IfOk result (λ apart. apart.drivers.items ≡ all_drivers workeds.items) }
        ensures ends { IfOk result (λ apart. apart.ends.items ≡ all_ends workeds.items) }
    {
        let mut drivers = Vec::new(alloc);
        let mut ends = Vec::new(alloc);
        for worked in workeds {
            let Handover { end, driver, .. } = worked;
            drivers.push(driver)?;
            ends.push(end)?;
        }
        Ok(DriversAndEnds { drivers, ends })
    }
}
