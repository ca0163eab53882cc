//! [`OrderedPorts`]: the ports of a run, and the lists of the turns that they are told.

ghost use Rattle.std.specs.Prelude.{◌≡◌, ◌≤◌, [], length, map, IfOk};
ghost use Rattle.sja_threads.specs.Inside.Boards.{NoneTold};
ghost use Rattle.sja_threads.specs.Inside.Names.{IsNamed};

use super::locked_port::LockedPort;
use super::order::Order;
use super::port_lists::PortLists;
use super::turns_of_node::TurnsOfNode;
use can_frame::OutOfMemory;
use sja_plan::Plan;
use std::alloc::Global;
use std::marker::PhantomData;
use std::sync::Mutex;

/// The ports of a run, each behind its lock, and the lists of the turns that they are told (this project's own rule).
#[derive(Drop)]
pub(crate) struct OrderedPorts<N: Order> {
    pub(crate) ports: Vec<Mutex<LockedPort<N>>>,
    pub(crate) told: Vec<TurnsOfNode<N>>,
}

impl<N: Order> OrderedPorts<N> {
    /// Those of the plan's nodes after power-on, in the plan's version of the rules, with these lists.
    ///
    /// Error: [`OutOfMemory`] where memory was refused.
    pub(crate) fn new(
        alloc: Global,
        plan: &Plan,
        lists: Vec<PortLists>,
    ) -> Result<OrderedPorts<N>, OutOfMemory>
        requires few { length lists.items ≤ 8 }
        requires version { N.version ≡ plan.now.version }
        requires turns { map (λ l. l.turns.name) lists.items ≡ N.turns }
        requires acts { map (λ l. l.acts.name) lists.items ≡ N.acts }
        ensures ports { IfOk result (λ o. length o.ports.items ≡ length lists.items) }
        ensures told { IfOk result (λ o. length o.told.items ≡ length lists.items) }
        ensures none { IfOk result (λ o. NoneTold o.told.items) }
    {
        let many = lists.len();
        let mut ports = Vec::with_capacity(alloc, many)?;
        let mut told = Vec::with_capacity(alloc, many)?;
        let version = plan.version();
        let mut node = 0u8;
        for list in lists {
            let (port, turns) = port_of_node::<N>(node, version, list);
            ports.push_reserved(Mutex::new(port));
            told.push_reserved(turns);
            node += 1;
        }
        Ok(OrderedPorts { ports, told })
    }
}

/// The port of a node of this version after power-on, with these lists, and the list of the turns that it is told.
pub fn port_of_node<N: Order>(
    node: u8,
    version: u8,
    lists: PortLists,
) -> (LockedPort<N>, TurnsOfNode<N>)
    requires version { version ≡ N.version }
    requires turns { IsNamed N.turns node lists.turns.name }
    requires acts { IsNamed N.acts node lists.acts.name }
    ensures { result.1.known.list ≡ [] }
{
    let PortLists {
        turns,
        told,
        acts,
        ..
    } = lists;
    let port = LockedPort::new(node, version, turns, acts);
    let turns = TurnsOfNode {
        node,
        known: told,
        ended: false,
        abort: false,
        awaited: 0,
        order: PhantomData,
    };
    (port, turns)
}
