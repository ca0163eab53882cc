//! [`RingRun`]: a plan that is run over links of two rings.

use super::message_fates::MessageFates;
use super::worker::Worker;
use can_frame::{Message, OutOfMemory};
use sja_bus::{Bus, BusFault, NodeLog, SerialBoard, are_links_of};
use sja_journal::{ACTIVATIONS, Entry, Up};
use sja_plan::{Plan, Turn};
use sja_rings::{NodeBus, node_pair};
use sja_steps::FaultScript;
use std::alloc::Global;
use std::test::Fail;

/// A plan that is run over links of two rings: the bus with its ends, the ports, and each driver with its own.
#[derive(Drop)]
pub struct RingRun {
    bus: Bus,
    ends: Vec<NodeBus>,
    board: SerialBoard,
    workers: Vec<Worker>,
    nodes: u8,
    bits: u32,
}

impl RingRun {
    /// The run of this plan, before its first turn.
    pub fn new(alloc: Global, plan: &Plan) -> Result<RingRun, Fail> {
        let count = plan.nodes();
        if count == 0 || count > 8 || plan.bits() == 0 || plan.bits() > 200_000 {
            return Err("no such bus")?;
        }
        let nodes = count as u8;
        let mut ends = Vec::with_capacity(alloc, 64)?;
        let mut workers = Vec::with_capacity(alloc, 64)?;
        for node in 0..nodes {
            let (bus, own) = node_pair(alloc, node)?;
            ends.push(bus)?;
            let steps = plan.steps(usize::from(node)).len().min(1_000) as u16;
            workers.push(Worker::new(alloc, plan.version(), node, own, steps)?)?;
        }
        Ok(RingRun {
            bus: bus_of(alloc, nodes, plan)?,
            ends,
            board: SerialBoard::new(alloc, nodes, plan.version())?,
            workers,
            nodes,
            bits: 0,
        })
    }

    /// Does all turns of the plan, in order: how many bits were run.
    pub fn run(&mut self, plan: &Plan) -> Result<u32, Fail> {
        for turn in plan.turns() {
            match turn {
                Turn::Bus(count) => self.run_bits(*count)?,
                Turn::Rest => self.rest(plan.bits())?,
                Turn::Node(node, count) => self.steps(plan, *node, *count)?,
                Turn::All(_) | Turn::Irq(_, _) | Turn::Go => Err("a turn of version 3")?,
            }
        }
        Ok(self.bits)
    }

    /// So many bits.
    fn run_bits(&mut self, count: u32) -> Result<(), Fail> {
        for _ in 0..count {
            self.bit()?;
        }
        Ok(())
    }

    /// Bits until every node is at rest, when all that was given was taken.
    fn rest(&mut self, most: u32) -> Result<(), Fail> {
        for _ in 0..most {
            if self.is_at_rest()? {
                return Ok(());
            }
            self.bit()?;
        }
        Err("no rest")?
    }

    /// So many steps of a node's driver.
    fn steps(&mut self, plan: &Plan, node: u8, count: u32) -> Result<(), Fail> {
        let place = usize::from(node);
        if place >= plan.nodes() {
            return Err("no such node")?;
        }
        match (self.workers.get_mut(place), self.board.ports.get_mut(place)) {
            (Some(worker), Some(port)) => worker.steps(port, plan.steps(place), count, self.bits),
            _ => Err("no such node")?,
        }
    }

    /// Takes what the drivers gave. Whether every node is at rest then.
    fn is_at_rest(&mut self) -> Result<bool, Fail> {
        if !are_links_of(self.ends.as_slice(), self.nodes, ACTIVATIONS)
            || self.board.ports.len() < usize::from(self.nodes)
        {
            return Err("not the bus's links and ports")?;
        }
        match self.bus.gather(self.ends.as_mut_slice()) {
            Ok(()) => Ok(self.bus.at_rest()),
            Err(_) => Err("a fault of the bus")?,
        }
    }

    /// One bit.
    fn bit(&mut self) -> Result<(), Fail> {
        if !are_links_of(self.ends.as_slice(), self.nodes, ACTIVATIONS)
            || self.board.ports.len() < usize::from(self.nodes)
        {
            return Err("not the bus's links and ports")?;
        }
        match self.bus.bit(self.ends.as_mut_slice(), &mut self.board) {
            Ok(()) => {
                self.bits = self.bits.saturating_add(1);
                Ok(())
            }
            Err(BusFault::BitsSpent) => Err("the bits are spent")?,
            Err(_) => Err("a fault of the bus")?,
        }
    }

    /// What became of the messages of this activation of a node, once all is done.
    pub fn collect(self, alloc: Global, node: u8, activation: u64) -> Result<MessageFates, Fail> {
        let RingRun { bus, workers, .. } = self;
        let mut workers = workers;
        let place = usize::from(node);
        let Some(worker) = workers.get_mut(place) else {
            return Err("no such node")?;
        };
        let mut told = worker.collect(alloc, activation)?;
        let logs = bus.finish()?;
        let Some(log) = logs.get(place) else {
            return Err("no such node")?;
        };
        told.overrun = overrun_of(alloc, log, activation)?;
        Ok(told)
    }
}

/// A bus of the plan's nodes.
fn bus_of(alloc: Global, nodes: u8, plan: &Plan) -> Result<Bus, OutOfMemory> {
    let mut strikes = Vec::with_capacity(alloc, plan.strikes().len())?;
    for strike in plan.strikes() {
        strikes.push(*strike)?;
    }
    let steps = Vec::from_elem(alloc, 1_000, usize::from(nodes))?;
    Bus::new(
        alloc,
        u64::from(plan.bits()),
        ACTIVATIONS,
        steps,
        FaultScript::of(strikes),
    )
}

/// The messages of an activation that found no room.
fn overrun_of(alloc: Global, log: &NodeLog, activation: u64) -> Result<Vec<Message>, Fail> {
    let mut overrun = Vec::new(alloc);
    let mut begun = 0u64;
    for entry in log.journal.entries() {
        let lost = lost_by(entry, &mut begun);
        if begun == activation {
            push(&mut overrun, lost)?;
        }
    }
    Ok(overrun)
}

/// The message that an entry says is lost; a start counts as one more activation that has begun.
fn lost_by(entry: Entry, begun: &mut u64) -> Option<Message> {
    match entry {
        Entry::Up(Up::Start(_)) => {
            *begun = begun.saturating_add(1);
            None
        }
        Entry::Overrun(message) => Some(message),
        _ => None,
    }
}

/// Adds a message where there is one.
fn push(messages: &mut Vec<Message>, message: Option<Message>) -> Result<(), Fail> {
    if let Some(message) = message {
        messages.push(message)?;
    }
    Ok(())
}
