//! The figure `faults`: eight nodes see six dominant levels again and again, and answer with error flags.

use super::wire::Wire;
use can_levels::Level;
use std::alloc::Global;

/// So many times six dominant levels, and then what eight nodes make of the bus until it is idle.
pub fn run(alloc: Global, count: u32) -> Option<String> {
    let mut wire = Wire::new(alloc, 8, false)?;
    wire.integrate();
    for _ in 0..count {
        for _ in 0..6 {
            wire.bit(Level::Dominant);
        }
        for _ in 0..20 {
            wire.bit(Level::Recessive);
        }
    }
    let tally = wire.count();
    format!(in alloc; "{tally}").ok()
}
