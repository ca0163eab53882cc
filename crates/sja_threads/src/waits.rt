//! How a thread waits for another.

use std::sync::Wait;
use std::thread;
use std::thread::Parker;
use std::time::Duration;

/// So often a thread waits without a park.
pub(crate) const SHORT: u32 = 100;

/// How long the first parks are, in microseconds, and by how much more each next few.
const PARK_MICROS: u64 = 50;

/// So many parks are as long as each other.
const PARKS_ALIKE: u32 = 16;

/// How long a park is at most, in microseconds.
const LONGEST_MICROS: u64 = 1_000;

/// Waits after a try or a round in vain, which has this number of those one after another: it yields after the first
/// hundred, and then parks, longer and longer, up to a millisecond. So a second of waiting costs about a hundredth of a
/// core, and what comes late is seen after a tenth of the time more at most. The parker is the thread's own.
pub(crate) fn wait_a_while(rt: &impl Wait, parker: &Parker, number: u32) {
    if number > SHORT {
        let steps = (number - SHORT) / PARKS_ALIKE + 1;
        let micros = (u64::from(steps) * PARK_MICROS).min(LONGEST_MICROS);
        parker.park_timeout(rt, Duration::from_micros(micros));
    } else {
        thread::yield_now();
    }
}
