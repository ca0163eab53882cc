//! The node traces of all nodes.

ghost use Rattle.std.specs.Prelude.{◌≡◌, ◌<◌, ◌≤◌, ◌∷◌, ℕ, [], length, slice_index_or, IfOk};
ghost use Rattle.lemmas.specs.Related.{EachRelated};
ghost use Rattle.sja_plan.specs.Plan.{steps_at};
ghost use Rattle.can_levels.specs.BusLevel.{wired};
ghost use Rattle.text_trace.specs.TraceText.{driven_in};
ghost use Rattle.text_trace.specs.TraceProgress.{HaveTold, IsUpTo, NodeTraceGoesOn, NodeTraceEnds, AreUnderway};
ghost use Rattle.text_trace.specs.TraceProgress.{driven_now};
ghost use Rattle.text_trace.specs.Passing.{NodeTracePasses, hands_driven};
ghost use Rattle.text_trace.specs.declared.node_trace.NodeTrace.{NodeTrace as Telling};
ghost use Rattle.sja_replay.specs.ReplayRest.{RestsFor};
ghost use Rattle.text_trace.specs.TraceRest.{AllRest, HasRested, PassesUnsaid};

use super::hand::driven_of;
use super::node_trace::NodeTrace;
use can_levels::Level;
use sja_log::NodeRun;
use sja_plan::Plan;
use sja_replay::BitEvent;
use sja_steps::Step;
use std::alloc::{AllocError, Global};

/// The node traces of all nodes of a run, before its first bit.
pub(crate) fn node_traces_of<'a>(
    alloc: Global,
    plan: &'a Plan,
    nodes: &'a [NodeRun],
) -> Result<Vec<NodeTrace<'a>>, AllocError>
    ensures { IfOk result (λ node_traces. IsUpTo plan.now nodes.now 0 node_traces.items []) }
{
    let mut node_traces = Vec::new(alloc);
    let mut number = 0usize;
    let by_bytes = plan.version() == 3;
    for node in nodes {
        let node_trace = NodeTrace::of(by_bytes, steps_of(plan, number), node);
        node_traces.push(node_trace)?;
        number += 1;
    }
    Ok(node_traces)
}

/// The steps of a node; none where the plan has no such node.
#[tactic(auto, using(crate::proofs::Stories::NodeStories::no_steps))]
fn steps_of<'a>(plan: &'a Plan, node: usize) -> &'a [Step]
    ensures { result.now ≡ steps_at plan.now node }
{
    if node < plan.nodes() {
        plan.steps(node)
    } else {
        &[]
    }
}

/// Each goes on past its next bit.
pub fn go_on_all(node_traces: &mut [NodeTrace<'_>])
    ensures { EachRelated NodeTraceGoesOn node_traces.old node_traces.new }
{
    for k in 0..node_traces.len() {
        node_traces[k].go_on();
    }
}

/// Each goes on past its next bit, in short where that tells nothing.
pub fn pass_on_all(node_traces: &mut [NodeTrace<'_>])
    ensures { EachRelated NodeTracePasses node_traces.old node_traces.new }
{
    for k in 0..node_traces.len() {
        node_traces[k].pass_on();
    }
}

/// For how many bits from this one on, at most so many, every node stays at rest and nothing is said of any. It may be
/// for more of them.
pub fn rest_for_all(node_traces: &[NodeTrace<'_>], bit: u32, most: u32) -> u32
    ensures most { result ≤ most }
    ensures rests { 0 < result → AllRest bit result node_traces.now }
{
    let mut count = most;
    for node_trace in node_traces {
        if count == 0 {
            return 0;
        }
        count = node_trace.rest_for(bit, count);
    }
    count
}

/// Each goes on past so many of these bits.
pub fn rest_all(node_traces: &mut [NodeTrace<'_>], count: u32)
    requires { (k : ℕ) (t : Telling) → k < length node_traces.old →
        RestsFor (slice_index_or node_traces.old k t).bits.replay count }
    ensures { EachRelated (HasRested count) node_traces.old node_traces.new }
{
    for k in 0..node_traces.len() {
        node_traces[k].rest(count);
    }
}

/// Goes on past bits from this one on, at most so many, in which every node stays at rest and nothing is said of any.
/// Answers how many; it may be that more of them follow.
pub(crate) fn rest_on(node_traces: &mut [NodeTrace<'_>], bit: u32, most: u32) -> u32
    requires { AreUnderway node_traces.old }
    ensures most { result ≤ most }
    ensures unsaid { PassesUnsaid bit node_traces.old result node_traces.new }
{
    let count = rest_for_all(node_traces, bit, most);
    if count == 0 {
        return 0;
    }
    rest_all(node_traces, count);
    count
}

/// Each goes on to its end.
pub fn finish_all(node_traces: &mut [NodeTrace<'_>])
    requires { AreUnderway node_traces.old }
    ensures { EachRelated NodeTraceEnds node_traces.old node_traces.new }
{
    for k in 0..node_traces.len() {
        node_traces[k].finish();
    }
}

/// The level on the bus in the bit at hand: dominant where any node drives dominant (Bosch CAN 2.0 part A section 2,
/// "Bus values").
pub fn bus_of(node_traces: &[NodeTrace<'_>]) -> Level
    ensures { result ≡ wired (driven_now node_traces.now) }
{
    let mut bus = Level::Recessive;
    for node_trace in node_traces {
        bus = with_node(bus, driven_in(node_trace.bits.bit()));
    }
    bus
}

/// The same, where bits are at hand in short.
pub fn bus_of_hands(node_traces: &[NodeTrace<'_>]) -> Level
    ensures { result ≡ wired (hands_driven node_traces.now) }
{
    let mut bus = Level::Recessive;
    for node_trace in node_traces {
        bus = with_node(bus, driven_of(&node_trace.short, node_trace.bits.bit()));
    }
    bus
}

/// The level that a node drives in its bit; recessive where it has none.
pub fn driven_in(bit: &Option<BitEvent>) -> Level
    ensures { result ≡ driven_in bit.now }
{
    match bit {
        Some(bit) => bit.driven,
        None => Level::Recessive,
    }
}

/// The level on a bus of this level where one node more drives this one.
pub fn with_node(bus: Level, driven: Level) -> Level
    ensures { result ≡ wired (bus ∷ driven ∷ []) }
{
    match bus {
        Level::Dominant => bus,
        Level::Recessive => driven,
    }
}
