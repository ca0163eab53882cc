//! The two ends of a node's links, as they are made.

ghost use Rattle.std.specs.Prelude.{ℕ, IfOk};
ghost use Rattle.sja_journal.specs.Lists.{nothing_yet};
ghost use Rattle.sja_rings.specs.NodeRings.{IsNewNodeBus, IsNewNodeDriver, OneNode, NodeBusLists, NodeDriverLists};

use super::node_bus::NodeBus;
use super::node_driver::NodeDriver;
use super::pair::ring_pair;
use can_frame::OutOfMemory;
use sja_journal::ACTIVATIONS;
use sja_link::LinkId;
use std::alloc::Global;

/// The two ends of a node's links, of each of 64 activations, with nothing on them. All their room is made here.
///
/// Error: [`OutOfMemory`] where memory was refused.
pub fn node_pair(alloc: Global, node: u8) -> Result<(NodeBus, NodeDriver), OutOfMemory>
    ensures one { IfOk result (λ r. OneNode r.0 r.1) }
    ensures bus { IfOk result (λ r. IsNewNodeBus node r.0) }
    ensures driver { IfOk result (λ r. IsNewNodeDriver node r.1) }
    ensures bus_lists { IfOk result (λ r. (a : ℕ) → NodeBusLists r.0 a nothing_yet) }
    ensures driver_lists { IfOk result (λ r. (a : ℕ) → NodeDriverLists r.1 a nothing_yet) }
{
    let mut buses = Vec::with_capacity(alloc, ACTIVATIONS as usize)?;
    let mut drivers = Vec::with_capacity(alloc, ACTIVATIONS as usize)?;
    for place in 0..ACTIVATIONS {
        let activation = place + 1;
        let (bus, driver) = ring_pair(alloc, LinkId { node, activation })?;
        buses.push_reserved(bus);
        drivers.push_reserved(driver);
    }
    let bus = NodeBus { node, rings: buses };
    let driver = NodeDriver {
        node,
        rings: drivers,
    };
    Ok((bus, driver))
}
