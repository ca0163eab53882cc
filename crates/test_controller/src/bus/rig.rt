//! [`Rig`]: a bus with its links, its ports and its drivers, in one thread.

use super::hand::Hand;
use super::places::{links_at, port_at};
use super::wired_bus::WiredBus;
use can_frame::Message;
use sja_bus::{NodeLog, serial_links};
use sja_driver::CommandFault;
use sja_journal::{Down, Up, most_activations};
use sja_link::{DequeLinks, DriverEnd, ReleaseFault};
use sja_regs::RegFault;
use sja_steps::FaultScript;
use std::alloc::Global;

/// A bus with its links, its ports and its drivers, in one thread. There is no answer where a node isn't there, or the
/// driver has no such call in its state.
#[derive(Drop)]
pub struct Rig {
    pub bus: WiredBus<DequeLinks>,
    hands: Vec<Hand>,
}

impl Rig {
    /// So many nodes after power-on, for so many bits, with these strikes.
    pub fn new(
        alloc: Global,
        version: u8,
        nodes: u8,
        bits: u32,
        strikes: FaultScript,
    ) -> Option<Rig> {
        let hands = hands_of(alloc, nodes)?;
        let links = serial_links(alloc, nodes, most_activations(version)).ok()?;
        let bus = WiredBus::new(alloc, version, nodes, bits, strikes, links)?;
        Some(Rig { bus, hands })
    }

    /// Starts the controller of a node.
    pub fn start(&mut self, node: u8) -> Option<()> {
        let hand = self.hands.get_mut(usize::from(node))?;
        let links = links_at(&mut self.bus.links, node)?;
        hand.start(links, port_at(&mut self.bus.board, node)?)
    }

    /// Stops it.
    pub fn stop(&mut self, node: u8) -> Option<()> {
        let hand = self.hands.get_mut(usize::from(node))?;
        let links = links_at(&mut self.bus.links, node)?;
        hand.stop(links, port_at(&mut self.bus.board, node)?)
    }

    /// Reads a register of it: what it was answered.
    pub fn read(&mut self, node: u8, addr: u8) -> Option<Result<u8, RegFault>> {
        let hand = self.hands.get_mut(usize::from(node))?;
        let links = links_at(&mut self.bus.links, node)?;
        hand.read(links, port_at(&mut self.bus.board, node)?, addr)
    }

    /// Writes a register of it: what it was answered.
    pub fn write(&mut self, node: u8, addr: u8, value: u8) -> Option<Result<(), RegFault>> {
        let hand = self.hands.get(usize::from(node))?;
        Some(hand.write(port_at(&mut self.bus.board, node)?, addr, value))
    }

    /// Loads its transmit buffer.
    pub fn load(&mut self, node: u8, message: &Message) -> Option<()> {
        let hand = self.hands.get(usize::from(node))?;
        hand.load(port_at(&mut self.bus.board, node)?, message)
    }

    /// Gives a command: what it was answered.
    pub fn command(&mut self, node: u8, value: u8) -> Option<Result<(), CommandFault>> {
        let hand = self.hands.get_mut(usize::from(node))?;
        let links = links_at(&mut self.bus.links, node)?;
        hand.command(links, port_at(&mut self.bus.board, node)?, value)
    }

    /// Releases the first message: what it was answered.
    pub fn release(&mut self, node: u8) -> Option<Result<u8, ReleaseFault>> {
        let hand = self.hands.get_mut(usize::from(node))?;
        let links = links_at(&mut self.bus.links, node)?;
        hand.release(links)
    }

    /// How many messages its driver got and didn't release.
    pub fn unread(&self, node: u8) -> Option<usize> {
        self.hands.get(usize::from(node)).map(|hand| hand.unread())
    }

    /// Gives an item on the link of this activation of a node, past its driver. Whether it was taken.
    pub fn give(&mut self, node: u8, activation: u64, item: Up) -> Option<bool> {
        let links = links_at(&mut self.bus.links, node)?;
        Some(links.give(activation, item).is_ok())
    }

    /// Gets the next item on that link, past its driver.
    pub fn get(&mut self, node: u8, activation: u64) -> Option<Option<Down>> {
        Some(links_at(&mut self.bus.links, node)?.get(activation))
    }

    /// How many items lie downward on that link; nothing where it has no queues.
    pub fn left(&mut self, node: u8, activation: u64) -> Option<usize> {
        let links = links_at(&mut self.bus.links, node)?;
        let place = activation.checked_sub(links.first())?;
        let other = links.others().get(usize::try_from(place).ok()?)?;
        let link = if links.at() == activation {
            links.here()
        } else {
            other
        };
        Some(link.down().len())
    }

    /// What stands of each node at the end, by node.
    pub fn finish(self) -> Option<Vec<NodeLog>> {
        let Rig { bus, hands: _ } = self;
        bus.finish()
    }
}

/// The drivers of so many nodes.
fn hands_of(alloc: Global, nodes: u8) -> Option<Vec<Hand>> {
    let mut hands = Vec::new(alloc);
    for node in 0..nodes {
        hands.push(Hand::new(node)).ok()?;
    }
    Some(hands)
}
