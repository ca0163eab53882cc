//! Bus-off and recovery of a sender without others. Bits count from 0 with the start.

use super::node::Station;
use can_levels::Level;
use can_node_rules::Phase;

/// Whether a bit is struck, each an SOF: every 18th from 11 on, 16 times, and every 26th from 307 on, 16 times.
pub fn is_struck(bit: u32) -> bool {
    is_one_of(bit, 11, 18) || is_one_of(bit, 307, 26)
}

/// Whether this is one of 16 bits, the first of which is given, and so many bits from one to the next.
fn is_one_of(bit: u32, first: u32, step: u32) -> bool {
    match bit.checked_sub(first) {
        Some(behind) => behind < step.wrapping_mul(16) && behind.checked_rem(step) == Some(0),
        None => false,
    }
}

/// The transmit error counter of a node that recovers, after so many recessive levels: one less for each eleven.
fn left(levels: u32) -> u32 {
    127u32.saturating_sub(levels / 11)
}

/// Whether the station, started anew, recovers with the last of 128 times eleven recessive levels, and counts down to
/// it.
pub fn recovers(station: &mut Station) -> bool {
    let mut right = counts(station, 127);
    for level in 1..1409u32 {
        right = right && station.drives().is_recessive() && station.phase() == Phase::Waiting;
        let events = station.sees(Level::Recessive);
        right = right && events.recovered == (level == 1408);
        right = right && u32::from(station.counters().tec) == left(level);
        right = right && station.counters().off == (level < 1408);
    }
    right && counts(station, 0) && station.phase() == Phase::Idle
}

/// Whether the transmit error counter is this, and the other one 0.
fn counts(station: &Station, transmit: u16) -> bool {
    let counters = station.counters();
    counters.tec == transmit && counters.rec == 0
}
