//! [`Station`]: a bus in one thread with a driver out of reset for each node.

ghost use Rattle.std.specs.Prelude.{◌≡◌, ◌≤◌, length, IfOk};
ghost use Rattle.sja_journal.specs.Links.{AreEnds, HaveLinks};

use super::running::run_bits;
use can_frame::{Message, OutOfMemory};
use sja_bus::{Bus, SerialBoard, are_links_of, serial_links};
use sja_driver::{Active, Driver};
use sja_link::{DequeLinks, DriverEnd};
use sja_plan::MOST_BITS;
use sja_regs::{Port, letters};
use sja_steps::{FaultScript, MOST_NODES};
use std::alloc::Global;

/// The command that requests a transmission (SJA1000 data sheet, 6.4.4).
const TRANSMIT: u8 = 1 << letters::TR;

/// For how many starts of its controller each node has links.
const STARTS: u64 = 1;

/// A bus in one thread with a driver out of reset for each node.
#[derive(Drop)]
pub struct Station {
    bus: Bus,
    links: Vec<DequeLinks>,
    board: SerialBoard,
    drivers: Vec<Driver<Active>>,
    ghost ends: { AreEnds (λ e. e.node) (length bus.journals) links.items },
    ghost many: { HaveLinks (λ e. e.starts) bus.starts links.items },
    ghost ports: { length bus.journals ≤ length board.ports.items },
}

impl Station {
    /// So many started nodes, each of which receives every frame, for so many bits. Nothing where memory was refused,
    /// and where there are no such buses.
    pub fn new(alloc: Global, nodes: u8, bits: u32) -> Option<Station> {
        if nodes == 0 || nodes > MOST_NODES || bits == 0 || bits > MOST_BITS {
            return None;
        }
        let (links, board, drivers) = ends_of(alloc, nodes)?;
        if !are_links_of(links.as_slice(), nodes, STARTS)
            || board.ports.len() < usize::from(nodes)
        {
            return None;
        }
        let Ok(bus) = plain_bus(alloc, nodes, bits) else {
            return None;
        };
        Some(Station {
            bus,
            links,
            board,
            drivers,
        })
    }

    /// Has the driver of this node load this message and request its transmission, where its transmit buffer is
    /// released.
    pub fn send(&mut self, node: usize, message: &Message) {
        let Some(driver) = self.drivers.get_mut(node) else {
            return;
        };
        let Some(port) = self.board.ports.get_mut(node) else {
            return;
        };
        if node < self.links.len() {
            ask(&mut self.links[node], driver, port, message);
        }
    }

    /// Has the driver of this node release the first message that it was shown. Whether there was one.
    pub fn release(&mut self, node: usize) -> bool {
        let Some(driver) = self.drivers.get_mut(node) else {
            return false;
        };
        if node < self.links.len() {
            is_released(&mut self.links[node], driver)
        } else {
            false
        }
    }

    /// So many bits, one after another, or those in which every node is at rest at once. Whether all were run.
    pub fn bits(&mut self, count: u32, at_once: bool) -> bool {
        let links = self.links.as_mut_slice();
        run_bits(&mut self.bus, links, &mut self.board, count, at_once)
    }
}

/// Has the driver load this message and request its transmission over these links, where they are its own and its
/// transmit buffer is released.
fn ask(links: &mut DequeLinks, driver: &mut Driver<Active>, port: &mut Port, message: &Message)
    ensures node { links.new.node ≡ links.old.node }
    ensures starts { links.new.starts ≡ links.old.starts }
{
    if DriverEnd::node(links) == driver.link().node && driver.load(port, message).is_ok() {
        let _ = driver.command(links, port, TRANSMIT);
    }
}

/// Has the driver release the first message that it was shown, over these links, where they are its own. Whether there
/// was one.
fn is_released(links: &mut DequeLinks, driver: &mut Driver<Active>) -> bool
    ensures node { links.new.node ≡ links.old.node }
    ensures starts { links.new.starts ≡ links.old.starts }
{
    DriverEnd::node(links) == driver.link().node && driver.release(links).is_ok()
}

/// A bus of so many nodes for so many bits, in none of which a node is struck.
fn plain_bus(alloc: Global, nodes: u8, bits: u32) -> Result<Bus, OutOfMemory>
    requires nodes { (1 ≤ nodes) × (nodes ≤ 8) }
    requires bits { (1 ≤ bits) × (bits ≤ 2000000) }
    ensures nodes { IfOk result (λ b. length b.journals ≡ nodes) }
    ensures starts { IfOk result (λ b. b.starts ≡ 1) }
{
    let steps = Vec::from_elem(alloc, 1_000, usize::from(nodes))?;
    Bus::new(
        alloc,
        u64::from(bits),
        STARTS,
        steps,
        FaultScript::of(Vec::new(alloc)),
    )
}

/// The links and the ports of so many nodes, and their drivers.
type Ends = (Vec<DequeLinks>, SerialBoard, Vec<Driver<Active>>);

/// The links and the ports of so many nodes, and a driver of each, started.
fn ends_of(alloc: Global, nodes: u8) -> Option<Ends> {
    let mut links = serial_links(alloc, nodes, STARTS).ok()?;
    let mut board = SerialBoard::new(alloc, nodes, 1).ok()?;
    let drivers = drivers_of(alloc, nodes, links.as_mut_slice(), &mut board)?;
    Some((links, board, drivers))
}

/// The drivers of so many nodes, each started.
fn drivers_of(
    alloc: Global,
    nodes: u8,
    links: &mut [DequeLinks],
    board: &mut SerialBoard,
) -> Option<Vec<Driver<Active>>> {
    let mut drivers = Vec::with_capacity(alloc, usize::from(nodes)).ok()?;
    for node in 0..nodes {
        drivers.push(started(node, links, board)?).ok()?;
    }
    Some(drivers)
}

/// The driver of this node, started.
fn started(node: u8, links: &mut [DequeLinks], board: &mut SerialBoard) -> Option<Driver<Active>> {
    let own = links.get_mut(usize::from(node))?;
    let port = board.ports.get_mut(usize::from(node))?;
    if DriverEnd::node(own) != node {
        return None;
    }
    Driver::new(node).start(own, port).ok()
}
