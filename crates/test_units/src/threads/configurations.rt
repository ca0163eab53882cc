//! A run of controllers that their drivers have configured by writes, in version 2.

use super::driver_threads::{are_answers, ended, two_gates};
use sja_log::{End, RunLog};
use std::alloc::Global;
use std::test::Fail;

/// Node 0 sets a single filter that passes only the frame with identifier 123 (hexadecimal) and the data 11 22, and
/// receives until it has one message. Node 1 sets self test, and sends the frame with identifier 089 and then that one.
/// Of two filters in the same registers the second would pass 089. When node 0 has stopped, node 1 sends the frame of
/// zeros, which nobody acknowledges.
const CONFIGURED: &str = "version = 2
bits = 2000
[[node]]
steps = [
    'read 0', 'read 2', 'read 16',
    'write 0 09', 'write 16 24', 'write 17 60', 'write 18 11', 'write 19 22',
    'write 20 00', 'write 21 0f', 'write 22 00', 'write 23 00',
    'read 0', 'read 2', 'read 16',
    'start', 'await 1', 'read 0', 'read 16', 'window', 'release', 'stop',
    'read 0', 'read 16', 'read 2',
]
[[node]]
steps = [
    'write 0 05', 'read 0',
    'start', 'load 0211201122', 'command 01', 'sent', 'load 0224601122', 'command 01', 'sent',
    'load 000000', 'command 01', 'sent', 'read 0',
]
";

/// Node 1 loads its last frame when node 0 has stopped. Node 0 reads its status register when that frame has been sent:
/// the bus has taken the stop by then, so no bit before it still tells RS and TS.
const FIRST: [(u32, u64); 3] = [(25, 13), (0, 0), (0, 0)];

const SECOND: [(u32, u64); 3] = [(10, 23), (0, 0), (0, 0)];

/// What the driver of the receiver is answered. After power-on MOD is 01 and ACR0 00. In reset mode SR is 3c: TBS, TCS,
/// RS and TS are 1. MOD's bit 0 is 0 out of reset mode, and at 16 stands the first byte of the message then.
const RECEIVER: &str = "01, 3c, 00, ok, ok, ok, ok, ok, ok, ok, ok, ok, 09, 3c, 24, \
    ok, ok, 08, 02, 02 24 60 11 22, 5, ok, 09, 24, 3c";

/// What that of the sender is: every wait passes, the last one with nobody to acknowledge.
const SENDER: &str = "ok, 05, ok, ok, ok, ok, ok, ok, ok, ok, ok, ok, 04";

/// Fails where the driver of this node was answered otherwise.
fn answered(alloc: Global, log: &RunLog, node: usize, expected: &str) -> Result<(), Fail> {
    match log.nodes().get(node) {
        Some(run) => are_answers(alloc, run.done(), expected),
        None => Err("no such node")?,
    }
}

/// Fails where an error counter of a node isn't 0.
fn are_clean(log: &RunLog) -> Result<(), Fail> {
    for node in log.nodes() {
        if node.txerr() != 0 || node.rxerr() != 0 {
            return Err("an error was counted")?;
        }
    }
    Ok(())
}

/// A message that the filter should have stopped would have come first, and been released or left unread.
#[test]
fn what_a_driver_writes_decides_what_is_stored(rt: HostRuntime) -> Result<(), Fail> {
    let gates = two_gates(rt.alloc(), FIRST, SECOND)?;
    let counts = [(25, 1, 0), (13, 0, 0)];
    let log = ended(&rt, rt.alloc(), CONFIGURED, gates, End::Rest, &counts)?;
    answered(rt.alloc(), &log, 0, RECEIVER)?;
    answered(rt.alloc(), &log, 1, SENDER)?;
    are_clean(&log)
}
