//! What the tests begin with: both ends of a node's links and a driver at its own, and whole runs.

use super::gates::{Meeting, Open};
use sja_driver::WorkLog;
use sja_link::DriverEnd;
use sja_log::{End, RunFault, RunLog};
use sja_plan::Plan;
use sja_plan_reading::read_plan;
use sja_rings::{NodeBus, NodeDriver, node_pair};
use sja_steps::{Step, StepRecord};
use sja_threads::{
    ActsOfNode, Gate, Handover, LockedPort, PortLists, TurnsOfNode, port_of_node, run_threads, work,
};
use std::alloc::Global;
use std::marker::Brand;
use std::sync::atomic::AtomicU64;
use std::sync::{Arc, Mutex, Wait};
use std::test::Fail;
use std::thread::Threads;
use text_report::put_answer;

/// A driver starts, waits for a message, and stops.
pub const WAITS: [Step; 3] = [Step::Start, Step::Await(1), Step::Stop];

/// The most steps of a test's script.
const MOST: usize = 100;

/// Both ends of the links of node 0.
pub fn both_ends(alloc: Global) -> Result<(NodeBus, NodeDriver), Fail> {
    Ok(node_pair(alloc, 0)?)
}

/// The port of node 0 in version 1, the list of the turns that it is told, and that of its driver's acts there.
pub fn one_port() -> (LockedPort<Brand>, TurnsOfNode<Brand>, ActsOfNode<Brand>) {
    let (lists, done) = PortLists::new(0);
    let (port, told) = port_of_node::<Brand>(0, 1, lists);
    (port, told, ActsOfNode::new(0, 1, done))
}

/// The part of node 0's driver at this end, with a log of its own.
pub fn drive<G: Gate>(
    rt: &impl Wait,
    alloc: Global,
    end: NodeDriver,
    port: &Mutex<LockedPort<Brand>>,
    done: ActsOfNode<Brand>,
    steps: &[Step],
    gate: G,
) -> Result<Handover<NodeDriver>, Fail> {
    if steps.len() > MOST || end.node() != 0 {
        return Err("too many steps, or not the driver's links")?;
    }
    let log = WorkLog::new(alloc, 1, MOST as u64, MOST as u64)?;
    Ok(work(rt, end, port, done, steps, gate, log))
}

/// Fails where these aren't the answers of the steps that were done, in the words of a report with `, ` between two.
pub fn answers(alloc: Global, worked: &Handover<NodeDriver>, expected: &str) -> Result<(), Fail> {
    are_answers(alloc, worked.driver.log().done()?, expected)
}

/// Fails where these aren't the answers of these steps.
pub fn are_answers(alloc: Global, done: &[StepRecord], expected: &str) -> Result<(), Fail> {
    let mut text = String::new(alloc);
    for step in done {
        put_step(&mut text, step)?;
    }
    if text.as_str().strip_prefix(", ").unwrap_or("") != expected {
        return Err("another answer")?;
    }
    Ok(())
}

/// Adds what a step answers.
fn put_step(text: &mut String, step: &StepRecord) -> Result<(), Fail> {
    text.push(',')?;
    put_answer(text, &step.answer)?;
    Ok(())
}

/// What is answered where just the wait of [`WAITS`] is refused, since the port is closed.
pub const GAVE_UP: &str = "ok, refused Closed, ok";

/// So many gates that let every step go.
pub fn open_gates(alloc: Global, nodes: usize) -> Result<Vec<Open>, Fail> {
    let mut gates = Vec::new(alloc);
    for _ in 0..nodes {
        gates.push(Open)?;
    }
    Ok(gates)
}

/// The marks of two gates: the step that each was asked for last.
fn marks(alloc: Global) -> Result<(Arc<AtomicU64>, Arc<AtomicU64>), Fail> {
    let one = Arc::new(alloc, AtomicU64::new(0))?;
    Ok((one, Arc::new(alloc, AtomicU64::new(0))?))
}

/// A gate with this mark of its own, beside the other one.
fn gate_of(
    own: &Arc<AtomicU64>,
    other: &Arc<AtomicU64>,
    held: [(u32, u64); 3],
) -> Result<Meeting, Fail> {
    let own = Arc::try_clone(own)?;
    Ok(Meeting {
        own,
        other: Arc::try_clone(other)?,
        held,
    })
}

/// The gates of two drivers: which steps of the first are held, and which of the second,
/// each up to a step of the other.
pub fn two_gates(
    alloc: Global,
    first: [(u32, u64); 3],
    second: [(u32, u64); 3],
) -> Result<Vec<Meeting>, Fail> {
    let (one, other) = marks(alloc)?;
    let mut gates = Vec::new(alloc);
    gates.push(gate_of(&one, &other, first)?)?;
    gates.push(gate_of(&other, &one, second)?)?;
    Ok(gates)
}

/// The log of a plan's run, or why there is none.
pub fn run_of<G: Gate, R: Threads + Wait + Sync>(
    rt: &R,
    alloc: Global,
    plan: &Plan,
    gates: Vec<G>,
) -> Result<RunLog, RunFault> {
    run_threads(rt, alloc, plan, gates)
}

/// The log of a plan's run.
pub fn run<G: Gate, R: Threads + Wait + Sync>(
    rt: &R,
    alloc: Global,
    text: &str,
    gates: Vec<G>,
) -> Result<RunLog, Fail> {
    let plan = read_plan(alloc, text.as_bytes())?;
    match run_of(rt, alloc, &plan, gates) {
        Ok(log) => Ok(log),
        Err(_) => Err("no run")?,
    }
}

/// Of this node: how many steps were done, and how many messages were released and left unread in its first activation.
pub fn counts(log: &RunLog, node: usize) -> Result<(usize, usize, usize), Fail> {
    let Some(run) = log.nodes().get(node) else {
        return Err("no such node")?;
    };
    let Some(activation) = run.activations().get(0) else {
        return Ok((run.done().len(), 0, 0));
    };
    Ok((
        run.done().len(),
        activation.released().len(),
        activation.unread().len(),
    ))
}

/// Fails where these aren't the counts of each node.
pub fn are_counts(log: &RunLog, expected: &[(usize, usize, usize)]) -> Result<(), Fail> {
    for node in 0..expected.len() {
        if counts(log, node)? != expected[node] {
            return Err("other counts")?;
        }
    }
    Ok(())
}

/// The log of a plan's run. It fails where the run doesn't end so, or a node has other counts.
pub fn ended<G: Gate, R: Threads + Wait + Sync>(
    rt: &R,
    alloc: Global,
    text: &str,
    gates: Vec<G>,
    end: End,
    expected: &[(usize, usize, usize)],
) -> Result<RunLog, Fail> {
    let log = run(rt, alloc, text, gates)?;
    if log.end() != end {
        return Err("another end")?;
    }
    are_counts(&log, expected)?;
    Ok(log)
}
