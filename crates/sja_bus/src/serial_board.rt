//! The ports of a bus in one thread.

ghost use Rattle.std.specs.Prelude.{◌≡◌, replicate, IfOk};
ghost use Rattle.sja_regs.specs.Registers.{at_power_on};

use super::board::Board;
use can_frame::OutOfMemory;
use sja_regs::{BusTurn, Orders, Port};
use std::alloc::Global;

/// The ports of a bus whose drivers and nodes take turns in one thread. Each call is that of the node's port, and the
/// other ports stay as they are.
#[derive(Debug, Drop)]
pub struct SerialBoard {
    /// The ports, by node.
    pub ports: Vec<Port>,
}

impl SerialBoard {
    /// So many ports after power-on, of this version of the model. All their room is made here.
    ///
    /// Error: [`OutOfMemory`] where memory was refused.
    pub fn new(alloc: Global, nodes: u8, version: u8) -> Result<SerialBoard, OutOfMemory>
        ensures { IfOk result (λ b. b.ports.items ≡ replicate nodes (at_power_on version)) }
    {
        let mut ports = Vec::with_capacity(alloc, usize::from(nodes))?;
        for _ in 0..nodes {
            ports.push_reserved(Port::new(version));
        }
        Ok(SerialBoard { ports })
    }
}

impl Board for SerialBoard {
    ghost use Rattle.std.specs.Prelude.{◌≡◌, ◌≢◌, ◌<◌, ℕ, List, length, refl};
    ghost use Rattle.std.proofs.Common.{◌∙◌, sym, ap};
    ghost use Rattle.sja_regs.specs.Turns.{after_turn};
    ghost use Rattle.sja_bus.specs.Boards.{HasOrders, HasFacts, ShowsTurn, WasTold, WasClosed, WasKept};
    ghost use Rattle.sja_bus.specs.Inside.SerialBoards.{orders_at, facts_after};

    ghost ports = { λ b. length b.ports.items };

    ghost orders_are = { λ b node orders. HasOrders b.ports.items node orders };

    ghost shows = { λ b node turn. ShowsTurn b.ports.items node turn };

    ghost told = { λ a b node turn. WasTold a.ports.items b.ports.items node turn };

    ghost shut = { λ a b node. WasClosed a.ports.items b.ports.items node };

    ghost kept = { λ a b node. WasKept a.ports.items b.ports.items node };

    ghost facts = { λ b node. HasFacts b.ports.items node };

    fn orders(&self, node: u8) -> Orders {
        self.ports[node as usize].orders()
    }

    fn bus_turn(&mut self, node: u8, turn: BusTurn) {
        self.ports[node as usize].bus_turn(&turn);
    }

    fn close(&mut self, node: u8) {
        self.ports[node as usize].close();
    }

    ghost kept_refl = { λ b k d. refl };

    ghost kept_trans = { λ a b c k p q d. q d ∙ p d };

    ghost told_first = { λ a b c k t p q d. q d ∙ p d };

    ghost told_last = { λ a b c k t p q d. q d ∙ ap (λ r. after_turn r t) (p d) };

    ghost told_same = { λ b k t p d. sym (p d) };

    ghost has_orders = { λ b k few. orders_at b.ports.items k few };

    ghost facts_go_on = { λ a b k count few so facts. facts_after a.ports.items b.ports.items k count few so facts };
}
