//! [`Wire`]: nodes on one wire, each bit taken the quick way where nothing happens.

use super::tally::Tally;
use can_frame::{Filter, Frame};
use can_levels::Level;
use can_node::Node;
use can_node_rules::{Config, Request};
use std::alloc::Global;

/// The filter that passes every frame.
pub const EVERY_FRAME: Filter = Filter {
    single: true,
    acr: [0; 4],
    amr: [255; 4],
};

/// A bit of a node in which something happened.
#[inline(never)]
fn sample_fully(node: &mut Node, level: Level, tally: &mut Tally) {
    let events = node.sample_fully(level);
    tally.add(&events);
}

/// Nodes on one wire, the level of its next bit, and what the nodes were told.
#[derive(Drop)]
pub struct Wire {
    nodes: Vec<Node>,
    level: Level,
    /// How many bits came since it was last asked what the nodes were told.
    bits: u64,
    tally: Tally,
}

impl Wire {
    /// So many started nodes, in self test or not. Nothing where memory was refused.
    pub fn new(alloc: Global, count: usize, self_test: bool) -> Option<Wire> {
        let mut nodes = Vec::with_capacity(alloc, count).ok()?;
        for _ in 0..count {
            let mut node = Node::new();
            node.start(Config {
                filter: EVERY_FRAME,
                self_test,
                listen: false,
                tec: None,
                rec: None,
            });
            nodes.push(node).ok()?;
        }
        Some(Wire {
            nodes,
            level: Level::Recessive,
            bits: 0,
            tally: Tally::new(),
        })
    }

    /// The bits in which started nodes wait for the bus.
    pub fn integrate(&mut self) {
        for _ in 0..11 {
            self.bit(Level::Recessive);
        }
    }

    /// One bit, in which another one beside the nodes drives this level.
    #[inline(always)]
    pub fn bit(&mut self, other: Level) {
        let level = Level::of(self.level.is_recessive() & other.is_recessive());
        let mut recessive = true;
        for node in self.nodes.iter_mut() {
            if !node.sample_quietly(level) {
                sample_fully(node, level, &mut self.tally);
            }
            recessive = recessive & node.drive().is_recessive();
        }
        self.level = Level::of(recessive);
        self.bits = self.bits.wrapping_add(1);
    }

    /// What the nodes were told so far.
    pub fn count(&mut self) -> &Tally {
        self.tally
            .pass(self.bits.wrapping_mul(self.nodes.len() as u64));
        self.bits = 0;
        &self.tally
    }

    /// Gives each node that holds no request one for this frame, its identifier raised by the node's number.
    pub fn ask(&mut self, identifier: u32, data: &[u8]) {
        let mut next = Level::Recessive;
        let mut number = 0u32;
        for node in self.nodes.iter_mut() {
            let raised = identifier.wrapping_add(number) % 0x2000_0000;
            if let Ok(frame) = Frame::new(true, raised, false, 8, data) {
                let _ = node.request(Request {
                    frame,
                    single_shot: false,
                    self_receive: false,
                });
            }
            if !node.drive().is_recessive() {
                next = Level::Dominant;
            }
            number = number.wrapping_add(1);
        }
        self.level = next;
    }

    /// The same for the first node alone.
    pub fn ask_first(&mut self, frame: &Frame) {
        if let Some(node) = self.nodes.get_mut(0) {
            let _ = node.request(Request {
                frame: frame.copy(),
                single_shot: false,
                self_receive: false,
            });
            if !node.drive().is_recessive() {
                self.level = Level::Dominant;
            }
        }
    }
}
