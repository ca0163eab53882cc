//! Whole runs in threads whose gates quit. Whole runs with open gates stand in the rows of `test_program`.

use super::driver_threads::ended;
use super::gates::Patience;
use sja_log::End;
use std::alloc::Global;
use std::test::Fail;

/// Node 0 waits for a message that never comes, and node 1 only starts.
const WAITING: &str = "version = 1
bits = 500
[[node]]
steps = [\"start\", \"await 1\", \"window\"]
[[node]]
steps = [\"start\"]
";

/// A node alone waits for one, and has as many bits as it needs to come to rest.
const WAITING_ALONE: &str = "version = 1
bits = 11
[[node]]
steps = [\"start\", \"await 1\"]
";

/// Two gates that quit at the 1000th try of a step.
fn patient_gates(alloc: Global) -> Result<Vec<Patience>, Fail> {
    let mut gates = Vec::new(alloc);
    gates.push(Patience { tries: 1_000 })?;
    gates.push(Patience { tries: 1_000 })?;
    Ok(gates)
}

/// A started node is at rest after eleven bits. The driver of node 0 gives up its second step.
#[test]
fn a_run_whose_gates_quit_ends_at_rest(rt: HostRuntime) -> Result<(), Fail> {
    let gates = patient_gates(rt.alloc())?;
    let counts = [(1, 0, 0), (1, 0, 0)];
    assert!(rt; ended(&rt, rt.alloc(), WAITING, gates, End::Rest, &counts)?.bits() == 11);
    Ok(())
}

/// No bit is due once it is at rest, so the port isn't closed, though the bits are spent.
#[test]
fn a_wait_with_all_bits_spent_at_rest_is_left_to_the_gate(rt: HostRuntime) -> Result<(), Fail> {
    let mut gates = Vec::new(rt.alloc());
    gates.push(Patience { tries: 1_000 })?;
    let counts = [(1, 0, 0)];
    assert!(rt; ended(&rt, rt.alloc(), WAITING_ALONE, gates, End::Rest, &counts)?.bits() == 11);
    Ok(())
}
