//! Refused memory: each call of a bus that makes room answers it; and buses that are made for more than they keep.
//!
//! Each test of refused memory answers well with and without memory, so that each allocation can be made to fail under
//! it.

use can_frame::OutOfMemory;
use sja_bus::{Bus, SerialBoard, serial_links};
use sja_journal::Endless;
use sja_steps::{FaultScript, Strike};
use std::alloc::Global;
use std::test::Fail;

/// For how many activations each node has links.
const STARTS: u64 = 8;

/// A bus of three nodes.
fn bus_of_three(alloc: Global) -> Result<Bus, OutOfMemory> {
    let steps = Vec::from_array(alloc, [10, 20, 30])?;
    Bus::new(alloc, 100, STARTS, steps, FaultScript::of(Vec::new(alloc)))
}

/// Whether it is at rest and has three nodes, where memory isn't refused.
fn is_bus_of_three(alloc: Global) -> bool {
    match bus_of_three(alloc) {
        Ok(bus) => bus.at_rest() && bus.finish().map(|logs| logs.len()) == Ok(3),
        Err(refused) => refused == OutOfMemory,
    }
}

#[test]
fn refused_memory_gives_no_bus(rt: HostRuntime) {
    assert!(rt; is_bus_of_three(rt.alloc()));
}

/// Whether the links of three nodes are there, where memory isn't refused.
fn are_links_of_three(alloc: Global) -> bool {
    match serial_links(alloc, 3, STARTS) {
        Ok(links) => links.len() == 3,
        Err(refused) => refused == OutOfMemory,
    }
}

#[test]
fn refused_memory_gives_no_links(rt: HostRuntime) {
    assert!(rt; are_links_of_three(rt.alloc()));
}

/// Whether a board of three nodes has three ports, where memory isn't refused.
fn are_ports_of_three(alloc: Global) -> bool {
    match SerialBoard::new(alloc, 3, 1) {
        Ok(board) => board.ports.len() == 3,
        Err(refused) => refused == OutOfMemory,
    }
}

#[test]
fn refused_memory_gives_no_board(rt: HostRuntime) {
    assert!(rt; are_ports_of_three(rt.alloc()));
}

#[test]
fn refused_memory_refuses_a_strike(rt: HostRuntime) {
    let script = FaultScript::of(Vec::new(rt.alloc()));
    let Ok(steps) = Vec::from_array(rt.alloc(), [10]) else {
        return;
    };
    let strike = Strike {
        node: 0,
        bit: 50,
        every: 1,
        times: 1,
    };
    if let Ok(mut bus) = Bus::new(rt.alloc(), 100, STARTS, steps, script) {
        match bus.strike(strike) {
            Ok(()) => assert!(rt; bus.bits_run() == 0),
            Err(refused) => assert!(rt; refused == OutOfMemory),
        }
    }
}

/// How many nodes have a log at the end of a bus for so many bits, of two nodes whose drivers do so many steps.
fn finished(alloc: Global, bits: u64, steps: [u64; 2]) -> Result<Result<usize, Endless>, Fail> {
    let steps = Vec::from_array(alloc, steps)?;
    let bus = Bus::new(alloc, bits, STARTS, steps, FaultScript::of(Vec::new(alloc)))?;
    Ok(bus.finish().map(|logs| logs.len()))
}

/// The journal of one node is enough.
#[test]
fn a_bus_made_for_more_than_it_keeps_has_no_logs(rt: HostRuntime) -> Result<(), Fail> {
    assert!(rt; finished(rt.alloc(), 100, [10, 10])? == Ok(2));
    assert!(rt; finished(rt.alloc(), 1 << 46, [10, 10])? == Err(Endless));
    assert!(rt; finished(rt.alloc(), 100, [1 << 41, 10])? == Err(Endless));
    assert!(rt; finished(rt.alloc(), 100, [10, 1 << 41])? == Err(Endless));
    Ok(())
}
