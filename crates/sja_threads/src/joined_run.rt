//! [`JoinedRun`]: a run once all its drivers' threads are joined, and how they are.

ghost use Rattle.std.specs.Prelude.{◌≡◌, ◌≤◌, [], map, vec_len, vec_capacity};
ghost use Rattle.lemmas.specs.Related.{EachRelated};
ghost use Rattle.sja_thread_promises.specs.Asking.{IsLet};
ghost use Rattle.sja_threads.specs.Inside.Promised.{IsPromised};

use super::bus_thread::BusThread;
use super::gate::Gate;
use super::handover::Handover;
use super::thread_promise::Child;
use sja_rings::NodeDriver;
use std::thread::Threads;

/// A run once all its drivers' threads are joined (this project's own rule): the bus, and what each driver handed back,
/// by node.
#[derive(Drop)]
pub(crate) struct JoinedRun {
    pub(crate) bus: BusThread,
    pub(crate) workeds: Vec<Handover<NodeDriver>>,
}

/// Joins the threads of all drivers, and gives what each handed back, in order.
pub(crate) fn join_all<G: Gate, R: Threads>(
    rt: &R,
    children: Vec<Child<G>>,
    workeds: Vec<Handover<NodeDriver>>,
) -> Vec<Handover<NodeDriver>>
    requires room { vec_len children ≤ vec_capacity workeds }
    requires none { workeds.items ≡ [] }
    ensures { EachRelated (IsPromised (IsLet G.QUITS G.answered)) (map (λ child. child.promise) children.items)
        result.items }
{
    let mut workeds = workeds;
    for child in children {
        workeds.push_reserved(child.join(rt));
    }
    workeds
}
