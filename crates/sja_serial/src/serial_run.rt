//! [`SerialRun`]: a run in one thread, as far as it has come.

use super::drivers::{acts_for, new_drivers};
use can_frame::OutOfMemory;
use sja_bus::{Bus, SerialBoard, serial_links};
use sja_driver::LoggedDriver;
use sja_journal::{WITHOUT_END, most_activations};
use sja_link::DequeLinks;
use sja_steps::FaultScript;
use std::alloc::Global;
use std::marker::Model;

/// The last version of plans (this project's own rule).
const LAST_OF_PLANS: u8 = 3;

/// A run in one thread, as far as it has come (this project's own rule).
///
/// What a driver gives is taken at once, so that between two steps nothing waits on any link. Contracts see it as its
/// bus, drivers, ports and links, and the bits that were run, and say at which acts of the drivers it stands.
/// [`run_serial`](super::run::run_serial) makes and turns one, and so do sessions and tests.
#[derive(Debug, Drop)]
pub struct SerialRun {
    pub(crate) bus: Bus,
    pub(crate) board: SerialBoard,
    pub(crate) links: Vec<DequeLinks>,
    pub(crate) drivers: Vec<LoggedDriver>,
    pub(crate) bits: u64,
}

impl Model for SerialRun {
    ghost use Rattle.sja_serial.specs.Serial.{SerialValue};

    ghost Value = { SerialValue };

    ghost view = { λ r. record {
      bus = r.bus;
      drivers = r.drivers.items;
      ports = r.board.ports.items;
      links = r.links.items;
      bits = r.bits;
    } };
}

impl SerialRun {
    ghost use Rattle.std.specs.Prelude.{◌≡◌, ◌<◌, ◌≤◌, [], length, map, replicate, IfOk};
    ghost use Rattle.sja_bus_rules.specs.Buses.{new_bus};
    ghost use Rattle.sja_journal.specs.Sizes.{most_activations};
    ghost use Rattle.sja_driver.specs.StepRuns.{most_acts};
    ghost use Rattle.sja_serial.specs.Serial.{CanBeMade, StandsBy, plan_version, setup_with};

    /// A run to which nothing happened, by the rules of this version of plans, where one after the last goes by those
    /// of the last, for so many bits, 1 to 2^62, with these strikes: of as many nodes, 1 to 8, as numbers of steps are
    /// given, each at most 2^56, as all numbers of 32 bits are, with room for so many steps of the driver of each, and
    /// for all activations that a node has in this version. All its room is made here. A run that is made for more than
    /// its lists keep ([`HISTORY_LIMIT`](sja_journal::HISTORY_LIMIT)) forgets what is oldest, and takes no memory for
    /// it.
    ///
    /// Error: [`OutOfMemory`] where memory was refused.
    pub fn new(
        alloc: Global,
        version: u8,
        bits: u64,
        steps: Vec<u64>,
        script: FaultScript,
    ) -> Result<SerialRun, OutOfMemory>
        requires { CanBeMade 1 bits steps.items }
        ensures stands { IfOk result (λ r. StandsBy (setup_with (plan_version version) bits script steps.items) r
            (replicate (length steps.items) [])) }
        ensures bus { IfOk result (λ r. r.bus ≡ new_bus script bits (length steps.items)
            (most_activations (plan_version version)) (map (most_acts (plan_version version)) steps.items)) }
    {
        SerialRun::made(alloc, version.min(LAST_OF_PLANS), bits, steps, script)
    }

    /// The same by the rules of version 3, but that starts aren't used up, as in a session without an end
    /// ([`WITHOUT_END`]), for more bits than a plan may have. There is no log of such a run.
    ///
    /// Error: [`OutOfMemory`] where memory was refused.
    pub fn without_end(
        alloc: Global,
        bits: u64,
        steps: Vec<u64>,
        script: FaultScript,
    ) -> Result<SerialRun, OutOfMemory>
        requires { CanBeMade 2000001 bits steps.items }
        ensures stands { IfOk result (λ r. StandsBy (setup_with 4 bits script steps.items) r
            (replicate (length steps.items) [])) }
        ensures bus { IfOk result (λ r. r.bus ≡ new_bus script bits (length steps.items)
            (most_activations 4) (map (most_acts 4) steps.items)) }
    {
        SerialRun::made(alloc, WITHOUT_END, bits, steps, script)
    }

    /// A run whose ports, drivers and links are of this version.
    ///
    /// Error: [`OutOfMemory`] where memory was refused.
    fn made(
        alloc: Global,
        version: u8,
        bits: u64,
        steps: Vec<u64>,
        script: FaultScript,
    ) -> Result<SerialRun, OutOfMemory>
        requires may { CanBeMade 1 bits steps.items }
        requires version { bits ≤ 2000000 → version < 4 }
        ensures stands { IfOk result (λ r. StandsBy (setup_with version bits script steps.items) r
            (replicate (length steps.items) [])) }
        ensures bus { IfOk result (λ r. r.bus ≡ new_bus script bits (length steps.items)
            (most_activations version) (map (most_acts version) steps.items)) }
    {
        let nodes = steps.len() as u8;
        let board = SerialBoard::new(alloc, nodes, version)?;
        let starts = most_activations(version);
        let links = serial_links(alloc, nodes, starts)?;
        let acts = acts_for(alloc, version, steps.as_slice())?;
        let drivers = new_drivers(alloc, version, steps.as_slice(), acts.as_slice())?;
        let bus = Bus::new(alloc, bits, starts, acts, script)?;
        Ok(SerialRun {
            bus,
            board,
            links,
            drivers,
            bits: 0,
        })
    }
}
