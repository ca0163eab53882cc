//! That each port is as the turns that it was told and its driver's acts there have led to.

ghost use Rattle.std.specs.Prelude.{◌≡◌, ◌≤◌, ◌<◌, ℕ, length, slice_index_or};
ghost use Rattle.sja_rings.specs.declared.node_driver.NodeDriver.{NodeDriver as Driver};
ghost use Rattle.sja_regs.specs.declared.registers.Registers.{Registers};
ghost use Rattle.sja_threads.specs.declared.handover.Handover.{Handover as WorkedValue};
ghost use Rattle.sja_thread_promises.specs.Ordering.{LedBy};
ghost use Rattle.sja_threads.specs.Inside.Boards.{turns_in};
ghost use Rattle.sja_threads.specs.Inside.EndsInOrder.{AreInOrder};
ghost use Rattle.sja_threads.specs.Inside.Names.{IsNamed};

use super::handover::Handover;
use super::known_half::KnownHalf;
use super::locked_port::LockedPort;
use super::never::wait_for_ever;
use super::order::Order;
use super::turn_board::TurnBoard;
use super::turns_of_node::TurnsOfNode;
use sja_rings::NodeDriver;
use sja_thread_promises::PortAct;
use std::sync::{Mutex, Wait};

/// Compares the port of each of so many nodes with the turns that the bus told and with what the driver handed back.
pub(crate) fn compare_all<N: Order, R: Wait>(
    board: &mut TurnBoard<N, R>,
    workeds: &mut Vec<Handover<NodeDriver>>,
    nodes: u8,
)
    requires told { nodes ≤ length board.old.told.items }
    requires workeds { nodes ≤ length workeds.old.items }
    requires named { (node : ℕ) (w : WorkedValue Driver) → node < nodes →
        IsNamed N.acts node (slice_index_or workeds.old.items node w).done.name }
    ensures told { turns_in board.new.told.items ≡ turns_in board.old.told.items }
    ensures workeds { workeds.new.items ≡ workeds.old.items }
    ensures order { AreInOrder N.version nodes (turns_in board.old.told.items) workeds.old.items }
{
    for node in 0..nodes {
        let place = usize::from(node);
        compare_one(
            board.rt,
            &board.ports[place],
            node,
            &mut board.told[place],
            &mut workeds[place].done,
        );
    }
}

/// The same of one node. A port that isn't the node's is waited at for ever; there is none.
fn compare_one<N: Order>(
    rt: &impl Wait,
    port: &Mutex<LockedPort<N>>,
    node: u8,
    told: &mut TurnsOfNode<N>,
    done: &mut KnownHalf<PortAct>,
)
    requires { IsNamed N.acts node done.old.name }
    ensures told { told.new.known ≡ told.old.known }
    ensures done { done.new ≡ done.old }
    ensures led { (p : Registers) × LedBy N.version told.old.known.list done.old.list p }
{
    let mut held = port.lock(rt);
    if !held.is_of(node) || told.node != node {
        wait_for_ever(rt);
    }
    held.compare(told, done);
}
