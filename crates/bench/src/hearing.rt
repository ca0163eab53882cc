//! The figure `hearing`: a node receives the longest kind of frame again and again.

use super::long_frame::long_line;
use super::wire::Wire;
use can_levels::Level;
use std::alloc::Global;

/// Receives the frame so many times, with intermission after each. Another one acknowledges it too.
pub fn run(alloc: Global, count: u32) -> Option<String> {
    let line = long_line(alloc)?;
    let mut wire = Wire::new(alloc, 1, false)?;
    wire.integrate();
    for _ in 0..count {
        for level in line.iter() {
            wire.bit(*level);
        }
        for _ in 0..3 {
            wire.bit(Level::Recessive);
        }
    }
    let tally = wire.count();
    format!(in alloc; "{tally}").ok()
}
