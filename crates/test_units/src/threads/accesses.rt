//! Whole runs in threads whose drivers know addresses and bytes alone.

use super::driver_threads::{are_answers, open_gates, run};
use super::gates::{HoldsOnce, Patience};
use sja_log::{End, RunLog};
use std::alloc::Global;
use std::test::Fail;

/// Node 0 writes its registers, its transmit buffer and the request of a frame of two bytes, awaits TI, and enters
/// reset mode; node 1 awaits RI, reads the frame, and releases it.
const PASSING: &str = "version = 3
bits = 2000
[[node]]
steps = [
    \"write 4 02\", \"write 0 00\", \"read 0\",
    \"write 16 02\", \"write 17 24\", \"write 18 60\", \"write 19 11\", \"write 20 22\", \"write 1 01\",
    \"interrupt\", \"read 3\", \"read 3\", \"write 0 01\", \"read 0\",
]
[[node]]
steps = [
    \"write 4 01\", \"write 0 00\", \"interrupt\", \"read 3\", \"read 29\",
    \"read 16\", \"read 17\", \"read 18\", \"read 19\", \"read 20\", \"read 21\",
    \"write 1 04\", \"read 29\", \"read 30\", \"read 3\",
]
";

/// Bytes of registers that have no effect on the bus, and writes that do nothing: of a register that is only read, of
/// CMR in reset mode, and of BTR0 out of it.
const KEPT: &str = "version = 3
bits = 100
[[node]]
steps = [
    \"write 6 03\", \"write 7 1c\", \"write 8 1a\", \"write 31 c8\", \"write 2 ff\", \"write 1 01\",
    \"read 6\", \"read 7\", \"read 8\", \"read 31\", \"read 2\",
    \"write 0 00\", \"write 6 ff\", \"read 6\",
]
";

/// Reset mode is left with LOM, then entered, and left with STM: a write of MOD is one act or two.
const MODES: &str = "version = 3
bits = 100
[[node]]
steps = [\"write 0 02\", \"read 0\", \"write 0 04\", \"write 0 01\", \"read 0\", \"write 0 04\", \"read 0\"]
";

/// Fails where these aren't the answers of this node's steps, in the words of a report with `, ` between two.
fn answers(alloc: Global, log: &RunLog, node: usize, expected: &str) -> Result<(), Fail> {
    match log.nodes().get(node) {
        Some(run) => are_answers(alloc, run.done(), expected),
        None => Err("no such node")?,
    }
}

/// What the driver that sends is answered.
const SENT: &str = "ok, ok, 00, ok, ok, ok, ok, ok, ok, ok, 02, 00, ok, 01";

/// What the driver that receives is answered.
const RECEIVED: &str = "ok, ok, ok, 01, 01, 02, 24, 60, 11, 22, 00, ok, 00, 05, 00";

#[test]
fn a_frame_is_sent_and_read_by_bytes(rt: HostRuntime) -> Result<(), Fail> {
    let gates = open_gates(rt.alloc(), 2)?;
    let log = run(&rt, rt.alloc(), PASSING, gates)?;
    assert!(rt; log.end() == End::Rest);
    answers(rt.alloc(), &log, 0, SENT)?;
    answers(rt.alloc(), &log, 1, RECEIVED)
}

/// What the driver that reads its registers is answered.
const READ_BACK: &str = "ok, ok, ok, ok, ok, ok, 03, 1c, 1a, c8, 3c, ok, ok, 03";

#[test]
fn kept_registers_are_read_back(rt: HostRuntime) -> Result<(), Fail> {
    let gates = open_gates(rt.alloc(), 1)?;
    let log = run(&rt, rt.alloc(), KEPT, gates)?;
    answers(rt.alloc(), &log, 0, READ_BACK)
}

/// Each gate holds each step once.
#[test]
fn a_write_of_the_mode_is_up_to_two_acts(rt: HostRuntime) -> Result<(), Fail> {
    let mut gates = Vec::new(rt.alloc());
    gates.push(HoldsOnce { last: 7 })?;
    let log = run(&rt, rt.alloc(), MODES, gates)?;
    answers(rt.alloc(), &log, 0, "ok, 02, ok, ok, 03, ok, 04")
}

/// It quits before the second try of the wait that is the third step.
#[test]
fn a_gate_that_quits_ends_the_script(rt: HostRuntime) -> Result<(), Fail> {
    let mut gates = Vec::new(rt.alloc());
    gates.push(Patience { tries: 2 })?;
    gates.push(Patience { tries: 2 })?;
    let text = "version = 3
bits = 500
[[node]]
steps = [\"write 0 00\", \"read 0\", \"interrupt\", \"read 3\"]
[[node]]
steps = []
";
    let log = run(&rt, rt.alloc(), text, gates)?;
    answers(rt.alloc(), &log, 0, "ok, 00")?;
    answers(rt.alloc(), &log, 1, "")
}
