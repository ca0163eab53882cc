//! [`RunParts`]: all that a run in threads begins with beside the ports; and the ports.

ghost use Rattle.std.specs.Prelude.{◌≡◌, [], length, map, vec_len, OnOk, IfOk};
ghost use Rattle.sja_threads.specs.Inside.Making.{AreMade, AreListed};
ghost use Rattle.sja_thread_promises.specs.Stopping.{act_counts};

use super::bus_thread::BusThread;
use super::gate::Gate;
use super::handover::Handover;
use super::port_lists::PortLists;
use super::thread_promise::Child;
use super::thread_start::ThreadStart;
use can_frame::OutOfMemory;
use sja_bus::Bus;
use sja_driver::{WorkLog, most_acts};
use sja_journal::ACTIVATIONS;
use sja_plan::Plan;
use sja_promises::script_of;
use sja_rings::{NodeBus, NodeDriver, node_pair};
use std::alloc::Global;

/// All that a run in threads begins with beside the ports (this project's own rule): the bus with its ends of the
/// links of all nodes, what each driver's thread begins with, and room for the threads and for what they hand back.
#[derive(Drop)]
pub(crate) struct RunParts<G: Gate> {
    pub(crate) bus: BusThread,
    pub(crate) starts: Vec<ThreadStart<G>>,
    pub(crate) children: Vec<Child<G>>,
    pub(crate) workeds: Vec<Handover<NodeDriver>>,
}

impl<G: Gate> RunParts<G> {
    ghost use Rattle.sja_threads.specs.Inside.Making.{AreRunParts};

    /// All of it for a run of this plan, with a gate for each node; and the lists of what comes at the ports, by node.
    ///
    /// Error: [`OutOfMemory`] where memory was refused.
    pub(crate) fn new(
        alloc: Global,
        plan: &Plan,
        gates: Vec<G>,
    ) -> Result<(RunParts<G>, Vec<PortLists>), OutOfMemory>
        requires { vec_len gates ≡ length plan.now.nodes }
        ensures parts { IfOk result (λ made. AreRunParts plan.now made.0) }
        ensures gates { IfOk result (λ made. map (λ s. s.gate) made.0.starts.items ≡ gates.items) }
        ensures many { IfOk result (λ made. length made.1.items ≡ length plan.now.nodes) }
        ensures listed { IfOk result (λ made.
            AreListed (length plan.now.nodes) made.0.starts.items made.1.items) }
    {
        plan.limits();
        let nodes = plan.nodes();
        let script = script_of(alloc, plan)?;
        let steps = acts_for(alloc, plan)?;
        let bus = Bus::new(alloc, plan.bits() as u64, ACTIVATIONS, steps, script)?;
        let mut links = Vec::new(alloc);
        let mut lists = Vec::new(alloc);
        let starts = starts_of(alloc, plan, gates, &mut links, &mut lists)?;
        let children = Vec::with_capacity(alloc, nodes)?;
        let workeds = Vec::with_capacity(alloc, nodes)?;
        let bus = BusThread {
            bus,
            links,
            run: 0,
            spent: false,
        };
        let parts = RunParts {
            bus,
            starts,
            children,
            workeds,
        };
        Ok((parts, lists))
    }
}

/// How many acts the driver of each node may do, in order.
///
/// Error: [`OutOfMemory`] where memory was refused.
fn acts_for(alloc: Global, plan: &Plan) -> Result<Vec<u64>, OutOfMemory>
    ensures count { IfOk result (λ counts. length counts.items ≡ length plan.now.nodes) }
    ensures counts { IfOk result (λ counts. counts.items ≡ act_counts plan.now) }
{
    let nodes = plan.nodes();
    let mut counts = Vec::with_capacity(alloc, nodes)?;
    for node in 0..nodes {
        let Some(many) = most_acts(plan.version(), plan.steps(node).len() as u64) else {
            unreachable!()
        };
        counts.push_reserved(many);
    }
    Ok(counts)
}

/// What the thread of each driver begins with, and the gate that it asks. The bus's end of each node's links is
/// added to `buses`, by node, and the lists of what comes at the ports to `lists`, by node.
///
/// Error: [`OutOfMemory`] where memory was refused.
fn starts_of<G: Gate>(
    alloc: Global,
    plan: &Plan,
    gates: Vec<G>,
    buses: &mut Vec<NodeBus>,
    lists: &mut Vec<PortLists>,
) -> Result<Vec<ThreadStart<G>>, OutOfMemory>
    requires gates { vec_len gates ≡ length plan.now.nodes }
    requires none { buses.old.items ≡ [] }
    requires new { lists.old.items ≡ [] }
    ensures count { IfOk result (λ starts. length starts.items ≡ length plan.now.nodes) }
    ensures asked { IfOk result (λ starts. map (λ s. s.gate) starts.items ≡ gates.items) }
    ensures links { OnOk result (length buses.new.items ≡ length plan.now.nodes) }
    ensures made { IfOk result (λ starts.
        AreMade plan.now (length plan.now.nodes) starts.items buses.new.items) }
    ensures many { OnOk result (length lists.new.items ≡ length plan.now.nodes) }
    ensures listed { IfOk result (λ starts.
        AreListed (length plan.now.nodes) starts.items lists.new.items) }
{
    plan.limits();
    let mut starts = Vec::with_capacity(alloc, plan.nodes())?;
    let mut node = 0u8;
    for gate in gates {
        let steps = plan.steps(usize::from(node)).len() as u64;
        let log = WorkLog::new(alloc, plan.version(), steps, steps)?;
        let (bus, end) = node_pair(alloc, node)?;
        buses.push(bus)?;
        let (list, done) = PortLists::new(node);
        lists.push(list)?;
        starts.push_reserved(ThreadStart {
            node,
            end,
            log,
            gate,
            done,
        });
        node += 1;
    }
    Ok(starts)
}
