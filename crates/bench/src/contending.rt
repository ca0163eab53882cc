//! The figure `contending`: eight nodes, each of which always holds a request.

use super::wire::Wire;
use can_levels::Level;
use std::alloc::Global;

/// The bits of an extended frame with eight data bytes and intermission, about.
const BITS: u32 = 140;

/// Lets the bits of so many frames pass; who holds no request is asked again between them.
pub fn run(alloc: Global, count: u32) -> Option<String> {
    let data = [0x11, 0x22, 0x33, 0x44, 0x55, 0x66, 0x77, 0x88];
    let mut wire = Wire::new(alloc, 8, false)?;
    wire.integrate();
    for _ in 0..count {
        wire.ask(0x1234_5678, &data);
        for _ in 0..BITS {
            wire.bit(Level::Recessive);
        }
    }
    let tally = wire.count();
    format!(in alloc; "{tally}").ok()
}
