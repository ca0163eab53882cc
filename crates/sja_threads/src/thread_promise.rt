//! [`ThreadPromise`]: what a driver's thread promises.

use super::gate::Gate;
use super::handover::Handover;
use super::known_half::KnownHalf;
use sja_plan::Plan;
use sja_rings::NodeDriver;
use sja_thread_promises::PortAct;
use std::snapshot::Snapshot;
use std::thread::{Promise, PromisedHandle};

/// What a driver's thread promises (this project's own rule): that it followed the steps which the plan has for its
/// node, with this end of its links and as its gate let it.
#[derive(Drop)]
pub(crate) struct ThreadPromise<G: Gate> {
    pub(crate) plan: Snapshot<Plan>,
    pub(crate) node: u8,
    pub(crate) end: Snapshot<NodeDriver>,
    pub(crate) done: Snapshot<KnownHalf<PortAct>>,
    pub(crate) gate: Snapshot<G>,
}

impl<G: Gate> Promise<Handover<NodeDriver>> for ThreadPromise<G> {
    ghost use Rattle.sja_thread_promises.specs.Asking.{IsLet};
    ghost use Rattle.sja_threads.specs.Inside.Started.{HandsBack};

    ghost kept_by = { λ p w. HandsBack (IsLet G.QUITS G.answered p.gate.value) p.plan.value p.node p.end.value
        p.done.value.name w };
}

/// A driver's thread.
pub(crate) type Child<G> = PromisedHandle<Handover<NodeDriver>, ThreadPromise<G>>;
