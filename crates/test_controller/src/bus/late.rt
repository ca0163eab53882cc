//! A strike that a bus takes on the way.

use super::bus_start::asked;
use super::logs::are_same_logs;
use super::rig::Rig;
use super::words::{number, strike_of};
use sja_steps::Strike;
use std::alloc::Global;

/// `late 20 1/60/1/1`: whether a bus that takes a strike after so many bits leaves what one leaves that began with it.
pub fn leaves_the_same(alloc: Global, after: &str, row: &str) -> Option<bool> {
    let (after, strike) = (number(after)?, strike_of(row)?);
    let mut late = asked(alloc, 200, &[])?;
    let struck = is_struck_late(&mut late, after, strike);
    let left = late.finish()?;
    let mut early = asked(alloc, 200, &[row])?;
    let rested = comes_to_rest(&mut early);
    let expected = early.finish()?;
    Some(struck && rested && are_same_logs(left.as_slice(), expected.as_slice()))
}

/// Whether a bus takes a strike after so many bits, and comes to rest.
fn is_struck_late(rig: &mut Rig, after: u32, strike: Strike) -> bool {
    rig.bus.bits(after) == Some(Ok(())) && rig.bus.strike(strike) && comes_to_rest(rig)
}

/// Whether a bus comes to rest.
fn comes_to_rest(rig: &mut Rig) -> bool {
    match rig.bus.rest() {
        Some(Ok(_)) => true,
        _ => false,
    }
}
