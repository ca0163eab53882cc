//! Runs in threads with too few or too many gates.

use super::driver_threads::{open_gates, run_of};
use sja_log::RunFault;
use sja_plan_reading::read_plan;
use std::alloc::Global;
use std::sync::Wait;
use std::test::Fail;
use std::thread::Threads;

/// Each of two nodes reads its status register, in a version of drivers that are typed.
const TYPED: &str = "version = 2
bits = 2000
[[node]]
steps = [\"read 2\"]
[[node]]
steps = [\"read 2\"]
";

/// The same in one of drivers that know addresses and bytes alone.
const BY_BYTES: &str = "version = 3
bits = 2000
[[node]]
steps = [\"read 2\"]
[[node]]
steps = [\"read 2\"]
";

/// Whether a run of two nodes with so many gates is refused for that.
fn is_refused<R: Threads + Wait + Sync>(
    rt: &R,
    alloc: Global,
    text: &str,
    gates: usize,
) -> Result<bool, Fail> {
    let plan = read_plan(alloc, text.as_bytes())?;
    let gates = open_gates(alloc, gates)?;
    let fault = run_of(rt, alloc, &plan, gates).err();
    Ok(matches!(&fault, Some(RunFault::GateCount)))
}

/// Whether a run of two nodes is refused with no gate, with one, and with three, and made with two.
fn takes_two<R: Threads + Wait + Sync>(rt: &R, alloc: Global, text: &str) -> Result<bool, Fail> {
    Ok(
        is_refused(rt, alloc, text, 0)?
            && is_refused(rt, alloc, text, 1)?
            && !is_refused(rt, alloc, text, 2)?
            && is_refused(rt, alloc, text, 3)?,
    )
}

#[test]
fn typed_drivers_have_a_gate_each(rt: HostRuntime) -> Result<(), Fail> {
    assert!(rt; takes_two(&rt, rt.alloc(), TYPED)?);
    Ok(())
}

#[test]
fn drivers_that_know_bytes_have_a_gate_each(rt: HostRuntime) -> Result<(), Fail> {
    assert!(rt; takes_two(&rt, rt.alloc(), BY_BYTES)?);
    Ok(())
}
