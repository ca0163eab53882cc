//! All nodes, gone over together.

ghost use Rattle.std.specs.Prelude.{◌≡◌, ◌<◌, ◌≤◌, [], ◌∷◌, IfOk};
ghost use Rattle.can_levels.specs.Fields.{is_recessive};
ghost use Rattle.lemmas.specs.Related.{EachRelated};
ghost use Rattle.can_levels.specs.BusLevel.{wired};
ghost use Rattle.text_wave.specs.Inside.Changes.{driven_before, driven_now};
ghost use Rattle.text_wave.specs.Inside.Probes.{BeginsAt, AreFirst, GoesOn, AreReading, Finishes};
ghost use Rattle.text_wave.specs.Inside.WaveRest.{AllRest, ProbeRested};

use super::probe::Probe;
use can_levels::Level;
use sja_log::NodeRun;
use std::alloc::{AllocError, Global};

/// A probe for each node, at the first bit.
pub(crate) fn probes_of<'a>(
    alloc: Global,
    nodes: &'a [NodeRun],
) -> Result<Vec<Probe<'a>>, AllocError>
    ensures { IfOk result (λ probes. AreFirst nodes.now probes.items) }
{
    let mut probes = Vec::new(alloc);
    for node in nodes {
        probes.push(first_of(node))?;
    }
    Ok(probes)
}

/// The probe of a node, at the first bit.
fn first_of<'a>(node: &'a NodeRun) -> Probe<'a>
    ensures { BeginsAt node.now result }
{
    let mut probe = Probe::of(node);
    probe.advance();
    probe
}

/// Each goes on past its next bit.
pub(crate) fn advance_all(probes: &mut [Probe<'_>])
    ensures { EachRelated GoesOn probes.old probes.new }
{
    for k in 0..probes.len() {
        probes[k].advance();
    }
}

/// For how many of the next bits, at most so many, nothing changes of any node. It may be for more of them.
pub(crate) fn rest_for_all(probes: &[Probe<'_>], most: u32) -> u32
    ensures most { result ≤ most }
    ensures rests { 0 < result → AllRest result probes.now }
{
    let mut count = most;
    for probe in probes {
        if count == 0 {
            return 0;
        }
        count = probe.rest_for(count);
    }
    count
}

/// Each goes on past so many of these bits, one at least.
pub(crate) fn rest_all(probes: &mut [Probe<'_>], count: u32)
    requires { AllRest count probes.old }
    ensures { EachRelated (ProbeRested count) probes.old probes.new }
{
    for k in 0..probes.len() {
        probes[k].rest(count);
    }
}

/// Of each the rest of its bits is told.
pub(crate) fn finish_all(probes: &mut [Probe<'_>])
    requires { AreReading probes.old }
    ensures { EachRelated Finishes probes.old probes.new }
{
    for k in 0..probes.len() {
        probes[k].finish();
    }
}

/// Whether the level on the bus is recessive: no node drives dominant.
pub(crate) fn bus_now(probes: &[Probe<'_>]) -> bool
    ensures { result ≡ is_recessive (wired (driven_now probes.now)) }
{
    let mut bus = Level::Recessive;
    for probe in probes {
        bus = with_node(bus, probe.cursor.shows.driven);
    }
    bus.is_recessive()
}

/// Whether it was recessive a bit before.
pub(crate) fn bus_before(probes: &[Probe<'_>]) -> bool
    ensures { result ≡ is_recessive (wired (driven_before probes.now)) }
{
    let mut bus = Level::Recessive;
    for probe in probes {
        bus = with_node(bus, probe.cursor.showed.driven);
    }
    bus.is_recessive()
}

/// The level on a bus of this level where one node more drives this one.
fn with_node(bus: Level, driven: Level) -> Level
    ensures { result ≡ wired (bus ∷ driven ∷ []) }
{
    if driven == Level::Dominant {
        driven
    } else {
        bus
    }
}
