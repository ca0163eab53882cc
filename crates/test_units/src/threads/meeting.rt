//! Drivers that wait for each other.

use super::driver_threads::{ended, two_gates};
use sja_log::{End, RunLog};
use std::alloc::Global;
use std::test::Fail;
use text_report::report;

/// Both nodes send, and then wait for the other's frame.
const EXCHANGING: &str = "version = 1
bits = 2000
[[node]]
steps = [\"start\", \"load 002460\", \"command 01\", \"sent\", \"await 1\", \"release\"]
[[node]]
steps = [\"start\", \"load 002440\", \"command 01\", \"sent\", \"await 1\", \"release\"]
";

/// No step of a driver is held.
const NONE: [(u32, u64); 3] = [(0, 0); 3];

/// Node 0 sends 22 messages of 3 bytes, of which 21 have room; node 1 waits for 21 and releases them.
const ONE_TOO_MANY: &str = "version = 1
bits = 2000
[[node]]
steps = [
    'start',
    'load 000000', 'command 01', 'sent', 'load 000000', 'command 01', 'sent', 'load 000000', 'command 01', 'sent',
    'load 000000', 'command 01', 'sent', 'load 000000', 'command 01', 'sent', 'load 000000', 'command 01', 'sent',
    'load 000000', 'command 01', 'sent', 'load 000000', 'command 01', 'sent', 'load 000000', 'command 01', 'sent',
    'load 000000', 'command 01', 'sent', 'load 000000', 'command 01', 'sent', 'load 000000', 'command 01', 'sent',
    'load 000000', 'command 01', 'sent', 'load 000000', 'command 01', 'sent', 'load 000000', 'command 01', 'sent',
    'load 000000', 'command 01', 'sent', 'load 000000', 'command 01', 'sent', 'load 000000', 'command 01', 'sent',
    'load 000000', 'command 01', 'sent', 'load 000000', 'command 01', 'sent', 'load 000000', 'command 01', 'sent',
    'load 000000', 'command 01', 'sent',
]
[[node]]
steps = [
    'start', 'await 21',
    'release', 'release', 'release', 'release', 'release', 'release', 'release', 'release', 'release', 'release',
    'release', 'release', 'release', 'release', 'release', 'release', 'release', 'release', 'release', 'release',
    'release',
    'read 29',
]
";

/// A plan of two nodes: node 0 sends what fills a receive buffer four times, and node 1 empties its own four times.
macro_rules! four_times {
    ($filling:literal, $emptying:literal) => {
        concat!(
            "version = 1
bits = 5000
[[node]]
steps = [
    'start',",
            $filling,
            $filling,
            $filling,
            $filling,
            "
]
[[node]]
steps = [
    'start',",
            $emptying,
            $emptying,
            $emptying,
            $emptying,
            "
]
"
        )
    };
}

/// Node 0 sends four messages of 13 bytes and one of 12 each time. Node 1 waits for five, and releases them.
const FOUR_TIMES_FULL: &str = four_times!(
    "
    'load 88000000000000000000000000', 'command 01', 'sent', 'load 88000000000000000000000000', 'command 01', 'sent',
    'load 88000000000000000000000000', 'command 01', 'sent', 'load 88000000000000000000000000', 'command 01', 'sent',
    'load 870000000000000000000000', 'command 01', 'sent',",
    "
    'await 5', 'release', 'release', 'release', 'release', 'release',"
);

/// Whether the report of a run has this line.
fn tells(alloc: Global, log: &RunLog, line: &str) -> Result<bool, Fail> {
    let text = report(alloc, log)?;
    for said in text.lines() {
        if said == line {
            return Ok(true);
        }
    }
    Ok(false)
}

/// Each driver's gate holds its first step until the other's was asked about its own. So both threads run at once.
#[test]
fn two_gates_meet(rt: HostRuntime) -> Result<(), Fail> {
    let held = [(1, 1), (0, 0), (0, 0)];
    let gates = two_gates(rt.alloc(), held, held)?;
    let counts = [(6, 1, 0), (6, 1, 0)];
    let _ = ended(&rt, rt.alloc(), EXCHANGING, gates, End::Rest, &counts)?;
    Ok(())
}

/// Node 0 loads its last message, in step 65, when node 1 has released all that it had and is asked about step 24. The
/// message has room, so the bus has collected credits while both drivers run.
/// A frame and its intermission take 53 bits.
#[test]
fn credits_come_back(rt: HostRuntime) -> Result<(), Fail> {
    let gates = two_gates(rt.alloc(), [(65, 24), (0, 0), (0, 0)], NONE)?;
    let counts = [(67, 0, 0), (24, 21, 1)];
    let log = ended(&rt, rt.alloc(), ONE_TOO_MANY, gates, End::Rest, &counts)?;
    assert!(rt; log.bits() == 11 + 22 * 53);
    let line = "activation 1 stored 22 overrun 0 free 61";
    assert!(rt; tells(rt.alloc(), &log, line)?);
    Ok(())
}

/// The 64 bytes are full four times: node 0 goes on each time that node 1 has released five messages. Their frames have
/// 147 levels, and the last one of each five has 137.
#[test]
fn a_full_buffer_is_emptied_again_and_again(rt: HostRuntime) -> Result<(), Fail> {
    let gates = two_gates(rt.alloc(), [(17, 8), (32, 14), (47, 20)], NONE)?;
    let counts = [(61, 0, 0), (25, 20, 0)];
    let log = ended(&rt, rt.alloc(), FOUR_TIMES_FULL, gates, End::Rest, &counts)?;
    assert!(rt; log.bits() == 11 + 4 * (4 * 150 + 140));
    let line = "activation 1 stored 20 overrun 0 free 64";
    assert!(rt; tells(rt.alloc(), &log, line)?);
    Ok(())
}
