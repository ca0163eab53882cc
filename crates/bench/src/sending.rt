//! The figure `sending`: a node alone on the bus sends the longest kind of frame again and again, in self test.

use super::long_frame::long_frame;
use super::wire::Wire;
use can_levels::Level;
use std::alloc::Global;

/// The bits of a frame of that kind with intermission, and the bit in which it is asked for again.
const BITS: u32 = 145;

/// Lets the bits of so many frames pass; the node is asked for the frame again after each.
pub fn run(alloc: Global, count: u32) -> Option<String> {
    told_of(alloc, 1, true, count)
}

/// The same for the first of so many nodes, in self test or not.
pub fn told_of(alloc: Global, nodes: usize, self_test: bool, count: u32) -> Option<String> {
    let frame = long_frame()?;
    let mut wire = Wire::new(alloc, nodes, self_test)?;
    wire.integrate();
    for _ in 0..count {
        wire.ask_first(&frame);
        for _ in 0..BITS {
            wire.bit(Level::Recessive);
        }
    }
    let tally = wire.count();
    format!(in alloc; "{tally}").ok()
}
