//! The figure `node`: three nodes on one wire send one frame in turn. Of each frame one node is the sender and the
//! others receive it; each node's bits are counted.

use super::long_frame::long_frame;
use super::tally::Tally;
use super::wire::EVERY_FRAME;
use can_frame::Frame;
use can_levels::Level;
use can_node::Node;
use can_node_rules::{Config, Outcome, Request};
use std::alloc::Global;

/// More bits than a frame needs: eleven before the first, and a line and the interframe space after it.
const MOST_BITS: u32 = 200;

/// Sends so many frames, each from the next node, and tells how many bits the nodes saw, and how many frames were sent
/// and received.
pub fn run(alloc: Global, count: u32) -> Option<String> {
    let frame = long_frame()?;
    let mut traffic = Traffic::new();
    for number in 0..count {
        if !traffic.send(number, &frame) {
            return None;
        }
    }
    let tally = &traffic.tally;
    format!(in alloc; "{tally}").ok()
}

/// Three nodes on one wire, and what they were told.
#[derive(Drop)]
struct Traffic {
    nodes: [Node; 3],
    tally: Tally,
}

/// A started node.
fn started() -> Node {
    let mut node = Node::new();
    node.start(Config {
        filter: EVERY_FRAME,
        self_test: false,
        listen: false,
        tec: None,
        rec: None,
    });
    node
}

impl Traffic {
    /// Three nodes that were started.
    fn new() -> Traffic {
        Traffic {
            nodes: [started(), started(), started()],
            tally: Tally::new(),
        }
    }

    /// Has the node of this number, counted round, send a frame. Whether it was sent.
    fn send(&mut self, number: u32, frame: &Frame) -> bool {
        let request = Request {
            frame: frame.copy(),
            single_shot: false,
            self_receive: false,
        };
        let asked = match number % 3 {
            0 => self.nodes[0].request(request),
            1 => self.nodes[1].request(request),
            _ => self.nodes[2].request(request),
        };
        asked.is_ok() && self.run()
    }

    /// Bits up to the one with which a frame is sent. Whether it came.
    fn run(&mut self) -> bool {
        for _ in 0..MOST_BITS {
            if self.bit() {
                return true;
            }
        }
        false
    }

    /// One bit of the wire. Whether a frame was sent with it.
    fn bit(&mut self) -> bool {
        let level = self.level();
        let mut sent = false;
        for node in self.nodes.iter_mut() {
            let events = node.sample(level);
            sent = sent || events.ended == Some(Outcome::Sent);
            self.tally.add(&events);
        }
        self.tally.pass(3);
        sent
    }

    /// The level of the wire: dominant where any node drives dominant.
    fn level(&self) -> Level {
        for node in self.nodes.iter() {
            if node.drive() == Level::Dominant {
                return Level::Dominant;
            }
        }
        Level::Recessive
    }
}
