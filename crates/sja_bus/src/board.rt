//! The ports of a bus.

ghost use Rattle.std.specs.Prelude.{◌≡◌, ◌≢◌, ◌<◌, ◌⊎◌, ℕ};
ghost use Rattle.sja_regs.specs.declared.orders.Orders.{Orders};
ghost use Rattle.sja_regs.specs.declared.bus_turn.BusTurn.{BusTurn};

use sja_regs::{BusTurn, Orders};

/// The ports of a bus, one for each node. What each node's driver does at its port between two calls isn't said here.
pub trait Board {
    /// How many ports there are: those of the nodes below this number.
    ghost ports: { Self → ℕ };

    /// The port of this node has these orders.
    ghost orders_are: { Self → ℕ → Orders → Type 0 };

    /// The port of this node shows already what this turn says: told the turn, it stays as it is.
    ghost shows: { Self → ℕ → BusTurn → Type 0 };

    /// The port of this node was told this turn.
    ghost told: { Self → Self → ℕ → BusTurn → Type 0 };

    /// The port of this node was closed.
    ghost shut: { Self → Self → ℕ → Type 0 };

    /// The port of this node is as it was.
    ghost kept: { Self → Self → ℕ → Type 0 };

    /// What holds of every port, of that of this node.
    ghost facts: { Self → ℕ → Type 0 };

    /// What the driver of this node wants of the bus. What holds of every port is said beside it.
    fn orders(&self, node: u8) -> Orders
        requires { node < ports self.now }
        ensures orders { orders_are self.now node result }
        ensures facts { facts self.now node };

    /// Tells the port of this node what a bit brought.
    fn bus_turn(&mut self, node: u8, turn: BusTurn)
        requires { node < ports self.old }
        ensures ports { ports self.new ≡ ports self.old }
        ensures told { told self.old self.new node turn }
        ensures others { (k : ℕ) → k ≢ node → kept self.old self.new k };

    /// Marks at the port of this node that the bus has no bits left.
    fn close(&mut self, node: u8)
        requires { node < ports self.old }
        ensures ports { ports self.new ≡ ports self.old }
        ensures shut { shut self.old self.new node }
        ensures others { (k : ℕ) → k ≢ node → kept self.old self.new k };

    /// A port that nothing happens to is as it was.
    ghost kept_refl: { (b : Self) (k : ℕ) → kept b b k };

    /// Being as it was carries over.
    ghost kept_trans: { (a b c : Self) (k : ℕ) → kept a b k → kept b c k → kept a c k };

    /// What was told before something else was done, and after it.
    ghost told_first: { (a b c : Self) (k : ℕ) (t : BusTurn) → told a b k t → kept b c k → told a c k t };

    ghost told_last: { (a b c : Self) (k : ℕ) (t : BusTurn) → kept a b k → told b c k t → told a c k t };

    /// What a port shows already it was told, where nothing is done.
    ghost told_same: { (b : Self) (k : ℕ) (t : BusTurn) → shows b k t → told b b k t };

    /// Each port has orders, whether it is asked for them or not.
    ghost has_orders: { (b : Self) (k : ℕ) → k < ports b → (o : Orders) × orders_are b k o };

    /// What holds of every port goes on where it was told a turn or is as it was.
    ghost facts_go_on: { (a b : Self) (k : ℕ) → ports b ≡ ports a → k < ports a →
        kept a b k ⊎ ((t : BusTurn) × told a b k t) → facts a k → facts b k };
}
