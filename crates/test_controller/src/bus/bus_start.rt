//! Buses to begin with.

use super::lawless_ends::{LawlessEnds, over_lawless_ends};
use super::many::asks;
use super::rig::Rig;
use super::wired_bus::WiredBus;
use super::words::{number, script_of, small};
use std::alloc::Global;

/// A bus with drivers, or one over lawless ends.
#[derive(Drop)]
pub enum BusStart {
    /// With drivers.
    Driven(Rig),
    /// Over lawless ends.
    Lawless(WiredBus<LawlessEnds>),
}

/// The bus of a call; none where it isn't written as calls are, or memory is refused.
///
/// `bus 1 2 200 0/60/1/1`, of version 1 with two nodes after power-on, for 200 bits, with strikes; `alone 2 200`, the
/// same of version 1, and node 0 is started and is to send the frame of zeros; `asked 200`, the same with two nodes,
/// and node 1 is started too; and `lawless`, two nodes over ends that do what no lawful link does, for 1,000 bits.
pub fn bus_begun(alloc: Global, words: &[&str]) -> Option<BusStart> {
    match words {
        ["bus", version, nodes, bits, strikes @ ..] => {
            let (version, nodes) = (small(version)?, small(nodes)?);
            let strikes = script_of(alloc, strikes)?;
            let rig = Rig::new(alloc, version, nodes, number(bits)?, strikes)?;
            Some(BusStart::Driven(rig))
        }
        ["alone", nodes, bits, strikes @ ..] => {
            let rig = alone(alloc, small(nodes)?, number(bits)?, strikes)?;
            Some(BusStart::Driven(rig))
        }
        ["asked", bits, strikes @ ..] => {
            Some(BusStart::Driven(asked(alloc, number(bits)?, strikes)?))
        }
        ["lawless", strikes @ ..] => {
            let strikes = script_of(alloc, strikes)?;
            Some(BusStart::Lawless(over_lawless_ends(alloc, strikes)?))
        }
        _ => None,
    }
}

/// A bus of which node 0 is started and has a request.
fn alone(alloc: Global, nodes: u8, bits: u32, strikes: &[&str]) -> Option<Rig> {
    let strikes = script_of(alloc, strikes)?;
    let mut rig = Rig::new(alloc, 1, nodes, bits, strikes)?;
    if rig.start(0).is_some() && asks(&mut rig, 0) {
        Some(rig)
    } else {
        None
    }
}

/// The same of two nodes, and node 1 is started too.
pub fn asked(alloc: Global, bits: u32, strikes: &[&str]) -> Option<Rig> {
    let mut rig = alone(alloc, 2, bits, strikes)?;
    if rig.start(1).is_some() {
        Some(rig)
    } else {
        None
    }
}
