//! [`WiredBus`]: a bus with its links and its ports, in one thread.

use sja_bus::{Bus, BusFault, NodeLog, SerialBoard, are_links_of};
use sja_link::BusEnd;
use sja_steps::{FaultScript, Strike};
use std::alloc::Global;

/// More bits than any row needs to come to rest.
const MANY: u32 = 20_000;

/// A bus with its links and its ports, in one thread. There is no answer where the links or the ports aren't
/// those of the bus.
#[derive(Drop)]
pub struct WiredBus<E> {
    bus: Bus,
    pub links: Vec<E>,
    pub board: SerialBoard,
    nodes: u8,
    /// How many links each end has.
    starts: u64,
}

impl<E: BusEnd + Drop> WiredBus<E> {
    /// So many nodes after power-on, for so many bits and 1,000 steps each, struck by this script, over these
    /// links.
    pub fn new(
        alloc: Global,
        version: u8,
        nodes: u8,
        bits: u32,
        script: FaultScript,
        links: Vec<E>,
    ) -> Option<WiredBus<E>> {
        if nodes == 0 || nodes > 8 || bits == 0 || bits > 2_000_000 {
            return None;
        }
        let starts = links.first()?.links();
        let Ok(steps) = Vec::from_elem(alloc, 1_000, usize::from(nodes)) else {
            return None;
        };
        let Ok(bus) = Bus::new(alloc, u64::from(bits), starts, steps, script) else {
            return None;
        };
        let Ok(board) = SerialBoard::new(alloc, nodes, version) else {
            return None;
        };
        Some(WiredBus {
            bus,
            links,
            board,
            nodes,
            starts,
        })
    }

    /// Takes what the drivers gave.
    pub fn gather(&mut self) -> Option<Result<(), BusFault>> {
        if !are_links_of(self.links.as_slice(), self.nodes, self.starts) {
            return None;
        }
        Some(self.bus.gather(self.links.as_mut_slice()))
    }

    /// One bit.
    pub fn bit(&mut self) -> Option<Result<(), BusFault>> {
        if !are_links_of(self.links.as_slice(), self.nodes, self.starts)
            || self.board.ports.len() < usize::from(self.nodes)
        {
            return None;
        }
        Some(self.bus.bit(self.links.as_mut_slice(), &mut self.board))
    }

    /// So many bits, each by a call of its own.
    pub fn bits(&mut self, count: u32) -> Option<Result<(), BusFault>> {
        for _ in 0..count {
            if let Err(fault) = self.bit()? {
                return Some(Err(fault));
            }
        }
        Some(Ok(()))
    }

    /// So many bits, or as many as are left, one after another, with `to_rest` as long as some node works: how many.
    pub fn several(&mut self, count: u32, to_rest: bool) -> Option<Result<u32, BusFault>> {
        if !are_links_of(self.links.as_slice(), self.nodes, self.starts)
            || self.board.ports.len() < usize::from(self.nodes)
        {
            return None;
        }
        let links = self.links.as_mut_slice();
        Some(self.bus.bits(links, &mut self.board, count, to_rest))
    }

    /// Up to so many bits at once, as far as every node is at rest: how many.
    pub fn quiet_bits(&mut self, count: u32) -> Option<Result<u32, BusFault>> {
        if !are_links_of(self.links.as_slice(), self.nodes, self.starts)
            || self.board.ports.len() < usize::from(self.nodes)
        {
            return None;
        }
        Some(
            self.bus
                .quiet_bits(self.links.as_mut_slice(), &self.board, count),
        )
    }

    /// Up to so many bits, up to the first in which a port is told its turn, with `to_rest` as long as some node works:
    /// how many.
    pub fn until_told(&mut self, count: u32, to_rest: bool) -> Option<Result<u32, BusFault>> {
        if !are_links_of(self.links.as_slice(), self.nodes, self.starts)
            || self.board.ports.len() < usize::from(self.nodes)
        {
            return None;
        }
        let links = self.links.as_mut_slice();
        Some(
            self.bus
                .bits_until_told(links, &mut self.board, count, to_rest),
        )
    }

    /// Takes a strike more; whether it was taken, which it isn't where its bit has run.
    pub fn strike(&mut self, strike: Strike) -> bool {
        if strike.bit < self.bus.bits_run() {
            return false;
        }
        match self.bus.strike(strike) {
            Ok(()) => true,
            Err(_) => false,
        }
    }

    /// Whether every node is at rest.
    pub fn at_rest(&self) -> bool {
        self.bus.at_rest()
    }

    /// Whether a start of this node was taken.
    pub fn started(&self, node: u8) -> bool {
        self.bus.started(node)
    }

    /// Gathers, and runs bits until every node is at rest: how many.
    pub fn rest(&mut self) -> Option<Result<u32, BusFault>> {
        for bits in 0..MANY {
            if let Err(fault) = self.gather()? {
                return Some(Err(fault));
            }
            if self.at_rest() {
                return Some(Ok(bits));
            }
            if let Err(fault) = self.bit()? {
                return Some(Err(fault));
            }
        }
        None
    }

    /// What stands of each node at the end, by node.
    pub fn finish(self) -> Option<Vec<NodeLog>> {
        let WiredBus {
            bus,
            links: _,
            board: _,
            nodes: _,
            starts: _,
        } = self;
        bus.finish().ok()
    }
}
