//! The figure `idle`: eight nodes on an idle bus.

use super::wire::Wire;
use can_levels::Level;
use std::alloc::Global;

/// Lets so many hundred bits pass.
pub fn run(alloc: Global, count: u32) -> Option<String> {
    let mut wire = Wire::new(alloc, 8, false)?;
    wire.integrate();
    for _ in 0..count {
        for _ in 0..100 {
            wire.bit(Level::Recessive);
        }
    }
    let tally = wire.count();
    format!(in alloc; "{tally}").ok()
}
