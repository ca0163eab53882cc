//! Sweeps that are refused.

use super::given::{one_frame, refused};
use sja_sweep::{SweepFault, Sweeping};
use std::test::Fail;

/// A node alone: of 10,001 bits that a run with 200,000 has. 10,001 runs of them come to 2,000,200,000.
const MANY_BITS: &str = "version = 1
bits = 200000
turns = [\"node 0 1\", \"bus 10001\"]
[[node]]
steps = [\"start\"]
";

/// A node alone, and 20,001 bits.
const MANY_RUNS: &str = "version = 1
bits = 20001
turns = [\"bus 20001\"]
[[node]]
steps = [\"start\"]
";

/// A node that is struck 999 times: there is room for one strike more, and not for two.
const ROOM_FOR_ONE: &str = "version = 1
bits = 2000
turns = [\"node 0 1\", \"bus 20\"]
faults = [\"0 1000 1 999\"]
[[node]]
steps = [\"start\"]
";

/// A node that is struck 1,000 times.
const STRUCK: &str = "version = 1
bits = 2000
turns = [\"node 0 1\", \"bus 20\"]
faults = [\"0 1000 1 1000\"]
[[node]]
steps = [\"start\"]
";

/// The limits: 20,000 runs, and 2,000,000,000 bits.
#[test]
fn too_many_runs_or_bits_are_told(rt: HostRuntime) -> Result<(), Fail> {
    let runs = refused(rt.alloc(), MANY_RUNS, Sweeping::all())?;
    assert!(rt; runs == Some(SweepFault::TooMany(20_001, 400_040_001)));
    let bits = refused(rt.alloc(), MANY_BITS, Sweeping::all())?;
    assert!(rt; bits == Some(SweepFault::TooMany(10_001, 2_000_200_000)));
    Ok(())
}

/// Fewer bits are asked for, so there are few runs.
#[test]
fn few_runs_are_made_of_many_bits(rt: HostRuntime) -> Result<(), Fail> {
    let mut sweeping = Sweeping::all();
    sweeping.last = 4;
    let runs = refused(rt.alloc(), MANY_RUNS, sweeping)?;
    assert!(rt; runs == None);
    Ok(())
}

/// The plan has the nodes 0 and 1.
#[test]
fn a_node_that_is_not_there_is_told(rt: HostRuntime) -> Result<(), Fail> {
    let mut sweeping = Sweeping::all();
    sweeping.node = Some(2);
    let fault = refused(rt.alloc(), one_frame(), sweeping)?;
    assert!(rt; fault == Some(SweepFault::NoNode));
    Ok(())
}

/// A plan with 1,000 strikes takes no more. Where no bit is struck there is no strike too many.
#[test]
fn a_plan_with_all_its_strikes_is_told(rt: HostRuntime) -> Result<(), Fail> {
    let fault = refused(rt.alloc(), STRUCK, Sweeping::all())?;
    assert!(rt; fault == Some(SweepFault::StrikeCount));
    let mut sweeping = Sweeping::all();
    sweeping.first = 20;
    let none = refused(rt.alloc(), STRUCK, sweeping)?;
    assert!(rt; none == None);
    Ok(())
}

/// Two strikes more need room for two.
#[test]
fn a_pair_has_no_room_where_one_strike_has(rt: HostRuntime) -> Result<(), Fail> {
    let none = refused(rt.alloc(), ROOM_FOR_ONE, Sweeping::all())?;
    assert!(rt; none == None);
    let mut sweeping = Sweeping::all();
    sweeping.pairs = Some(1);
    let fault = refused(rt.alloc(), ROOM_FOR_ONE, sweeping)?;
    assert!(rt; fault == Some(SweepFault::StrikeCount));
    Ok(())
}

/// Of 20,001 bits each two that are one or two bits apart: 20,000 pairs and 19,999.
#[test]
fn too_many_pairs_are_told(rt: HostRuntime) -> Result<(), Fail> {
    let mut sweeping = Sweeping::all();
    sweeping.pairs = Some(2);
    let pairs = refused(rt.alloc(), MANY_RUNS, sweeping)?;
    assert!(rt; pairs == Some(SweepFault::TooMany(39_999, 800_019_999)));
    Ok(())
}
