//! [`ThreadStart`]: what the thread of a driver begins with, and how the threads of all drivers are started.

ghost use Rattle.std.specs.Prelude.{◌≡◌, ◌≤◌, [], length, map, vec_len, vec_capacity, All, IfOk, IfErr};
ghost use Rattle.lemmas.specs.Related.{EachRelated};
ghost use Rattle.sja_log.specs.declared.run_fault.RunFault.TheVariants.{Thread};
ghost use Rattle.sja_thread_promises.specs.Asking.{IsLet};
ghost use Rattle.sja_threads.specs.Inside.Started.{IsThreadStart, AreOrdered, Serves};
ghost use Rattle.sja_threads.specs.Inside.Names.{IsOrderOf};
ghost use Rattle.sja_threads.specs.Inside.Promised.{IsFor};

use super::acts_of_node::ActsOfNode;
use super::at_gate::AtGate;
use super::driver_thread::follow;
use super::gate::Gate;
use super::handover::Handover;
use super::known_half::KnownHalf;
use super::lobby::Lobby;
use super::locked_port::LockedPort;
use super::order::Order;
use super::thread_promise::{Child, ThreadPromise};
use sja_driver::WorkLog;
use sja_log::RunFault;
use sja_plan::Plan;
use sja_rings::NodeDriver;
use sja_thread_promises::PortAct;
use std::snapshot::Snapshot;
use std::sync::{Mutex, Wait};
use std::thread::{Scope, Threads};

/// What the thread of a node's driver begins with (this project's own rule): its end of the node's links, an
/// empty log with room for all its steps, and the gate that it asks.
#[derive(Drop)]
pub(crate) struct ThreadStart<G: Drop> {
    pub(crate) node: u8,
    pub(crate) end: NodeDriver,
    pub(crate) log: WorkLog,
    pub(crate) gate: G,
    pub(crate) done: KnownHalf<PortAct>,
}

/// The part of a driver, in its own thread. It begins with what is set after power-on, in the plan's version of the
/// rules.
fn serve<N: Order, G: Gate>(
    rt: &impl Wait,
    plan: &Plan,
    start: ThreadStart<G>,
    port: &Mutex<LockedPort<N>>,
    lobby: &Mutex<Lobby>,
) -> Handover<NodeDriver>
    requires start { IsThreadStart plan.now start }
    requires order { IsOrderOf N.version N.acts plan.now.version start.node start.done.name }
    ensures { Serves (IsLet G.QUITS G.answered) plan.now start result }
{
    let ThreadStart {
        node,
        end,
        log,
        gate,
        done,
    } = start;
    let done = ActsOfNode::<N>::new(node, plan.version(), done);
    let steps = plan.steps(usize::from(node));
    follow(
        AtGate::new(rt, port, gate, Some(lobby)),
        done,
        end,
        log,
        steps,
    )
}

/// Starts the thread of a driver.
///
/// Error: [`RunFault::Thread`] where no thread can be made.
fn start_one<'s, E, N: Order + Send + Sync + 's, G: Gate + 's, R: Threads + Wait + Sync>(
    scope: &Scope<'s, E>,
    rt: &'s R,
    plan: &'s Plan,
    start: ThreadStart<G>,
    port: &'s Mutex<LockedPort<N>>,
    lobby: &'s Mutex<Lobby>,
) -> Result<Child<G>, RunFault>
    requires start { IsThreadStart plan.now start }
    requires order { IsOrderOf N.version N.acts plan.now.version start.node start.done.name }
    ensures child { IfOk result (λ child. IsFor plan.now start child.promise) }
    ensures fault { IfErr result (λ f. f ≡ Thread) }
{
    let promise = ThreadPromise {
        plan: Snapshot::of(plan),
        node: start.node,
        end: Snapshot::of(&start.end),
        done: Snapshot::of(&start.done),
        gate: Snapshot::of(&start.gate),
    };
    match scope.spawn_with(
        promise,
        move || -> Handover<NodeDriver>
            requires start { IsThreadStart plan.now start }
            requires order { IsOrderOf N.version N.acts plan.now.version start.node start.done.name }
            ensures { Serves (IsLet G.QUITS G.answered) plan.entry.now start result }
        { serve(rt, plan, start, port, lobby) },
    ) {
        Ok(child) => Ok(child),
        Err(_) => Err(RunFault::Thread),
    }
}

/// Starts the threads of all drivers, in order.
///
/// Error: [`RunFault::Thread`] where no thread can be made; those that were started run on.
pub(crate) fn start_all<'s, E, N: Order + Send + Sync + 's, G: Gate + 's, R: Threads + Wait + Sync>(
    scope: &Scope<'s, E>,
    rt: &'s R,
    plan: &'s Plan,
    starts: Vec<ThreadStart<G>>,
    ports: &'s [Mutex<LockedPort<N>>],
    lobby: &'s Mutex<Lobby>,
    children: Vec<Child<G>>,
) -> Result<Vec<Child<G>>, RunFault>
    requires starts { All (IsThreadStart plan.now) starts.items }
    requires order { AreOrdered N.version N.acts plan.now.version starts.items }
    requires ports { length ports.now ≡ vec_len starts }
    requires room { vec_len starts ≤ vec_capacity children }
    requires none { children.items ≡ [] }
    ensures all { IfOk result (λ all.
        EachRelated (IsFor plan.now) starts.items (map (λ child. child.promise) all.items)) }
    ensures fault { IfErr result (λ f. f ≡ Thread) }
{
    let mut children = children;
    let mut next = 0;
    for start in starts {
        let child = start_one(scope, rt, plan, start, &ports[next], lobby)?;
        children.push_reserved(child);
        next += 1;
    }
    Ok(children)
}
