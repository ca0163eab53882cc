//! [`TurnBoard`]: the ports of a run in threads, as its bus has them.

ghost use Rattle.std.specs.Prelude.{◌≡◌, ◌≢◌, ◌≤◌, ◌<◌, ◌++◌, ◌∷◌, [], ℕ, false, true, length};
ghost use Rattle.sja_thread_promises.specs.declared.port_update.PortUpdate.{PortUpdate as ToldValue};
ghost use Rattle.sja_threads.specs.Inside.Boards.{AllEnded, EachTold, SaysBits, SaysSpent, turns_at, turns_in};

use super::locked_port::LockedPort;
use super::never::wait_for_ever;
use super::order::Order;
use super::turns_of_node::TurnsOfNode;
use sja_bus::Board;
use sja_regs::{BusTurn, Orders};
use std::sync::{Mutex, Wait};

/// The ports of a run in threads, as its bus has them (this project's own rule): each behind its lock, and the lists of
/// what they were told. Each call takes the lock of the node's port. An abort is one that was found to stand as the
/// port was told last how many bits have run, and that stands still.
#[derive(Drop)]
pub struct TurnBoard<'a, N: Order, R: Wait> {
    /// What a lock is waited for with.
    pub rt: &'a R,
    /// The ports, by node.
    pub ports: &'a [Mutex<LockedPort<N>>],
    /// The lists of what they were told, by node.
    pub told: Vec<TurnsOfNode<N>>,
    ghost many: { length told.items ≤ length ports.now },
    ghost few: { length told.items ≤ 8 },
}

impl<'a, N: Order, R: Wait> TurnBoard<'a, N, R> {
    /// Tells each port how many bits have run, and finds what the drivers order.
    pub fn tell_bits(&mut self, bits: u32)
        ensures many { length self.new.told.items ≡ length self.old.told.items }
        ensures told { EachTold (SaysBits bits) (turns_in self.old.told.items) (turns_in self.new.told.items) }
    {
        for node in 0..self.told.len() {
            self.tell_bits_at(node, bits);
        }
    }

    /// Tells one.
    fn tell_bits_at(&mut self, node: usize, bits: u32)
        requires { node < length self.old.told.items }
        ensures many { length self.new.told.items ≡ length self.old.told.items }
        ensures told { (more : ToldValue) × SaysBits bits more × (turns_at (turns_in self.new.told.items) node
            ≡ turns_at (turns_in self.old.told.items) node ++ more ∷ []) }
        ensures others { (k : ℕ) → k ≢ node →
            turns_at (turns_in self.new.told.items) k ≡ turns_at (turns_in self.old.told.items) k }
    {
        let mut held = self.ports[node].lock(self.rt);
        let told = &mut self.told[node];
        if !held.is_of(told.node) {
            wait_for_ever(self.rt);
        }
        held.tell_bits(told, bits);
    }

    /// Whether all drivers were found to have ended.
    pub(crate) fn all_ended(&self) -> bool
        ensures { result ≡ true → (nodes : ℕ) → nodes ≤ length self.now.told.items →
            AllEnded nodes (turns_in self.now.told.items) }
    {
        for node in 0..self.told.len() {
            if !self.told[node].ended {
                return false;
            }
        }
        true
    }

    /// Marks at all ports that the bus has no bits left.
    pub(crate) fn close_all(&mut self)
        ensures many { length self.new.told.items ≡ length self.old.told.items }
        ensures told { EachTold SaysSpent (turns_in self.old.told.items) (turns_in self.new.told.items) }
    {
        for node in 0..self.told.len() {
            self.close_at(node);
        }
    }

    /// Marks so at one.
    fn close_at(&mut self, node: usize)
        requires { node < length self.old.told.items }
        ensures many { length self.new.told.items ≡ length self.old.told.items }
        ensures told { (more : ToldValue) × SaysSpent more × (turns_at (turns_in self.new.told.items) node
            ≡ turns_at (turns_in self.old.told.items) node ++ more ∷ []) }
        ensures others { (k : ℕ) → k ≢ node →
            turns_at (turns_in self.new.told.items) k ≡ turns_at (turns_in self.old.told.items) k }
    {
        let mut held = self.ports[node].lock(self.rt);
        let told = &mut self.told[node];
        if !held.is_of(told.node) {
            wait_for_ever(self.rt);
        }
        held.close(told);
    }
}

impl<'a, N: Order, R: Wait> Board for TurnBoard<'a, N, R> {
    ghost use Rattle.std.specs.Prelude.{◌≡◌, ◌++◌, [], ◌∷◌, length, refl};
    ghost use Rattle.std.proofs.Common.{◌∙◌, ap};
    ghost use Rattle.sja_thread_promises.specs.declared.port_update.PortUpdate.TheVariants.{Turn, Spent};
    ghost use Rattle.sja_thread_promises.specs.Ordering.{MayOrder};
    ghost use Rattle.sja_threads.specs.Inside.Boards.{turns_at, turns_in};

    ghost ports = { λ b. length b.told.items };

    ghost orders_are = { λ b node orders. MayOrder (turns_at (turns_in b.told.items) node) orders };

    ghost shows = { λ b node turn. ⊥ };

    ghost told = { λ a b node turn. turns_at (turns_in b.told.items) node
        ≡ turns_at (turns_in a.told.items) node ++ Turn turn ∷ [] };

    ghost shut = { λ a b node. turns_at (turns_in b.told.items) node
        ≡ turns_at (turns_in a.told.items) node ++ Spent ∷ [] };

    ghost kept = { λ a b node. turns_at (turns_in b.told.items) node ≡ turns_at (turns_in a.told.items) node };

    ghost facts = { λ b node. Unit {0} };

    fn orders(&self, node: u8) -> Orders {
        let place = place_of(node);
        let told = &self.told[place];
        let mut abort = told.abort;
        if abort {
            abort = self.ports[place].lock(self.rt).orders().abort;
        }
        Orders {
            abort,
            ended: told.ended,
        }
    }

    fn bus_turn(&mut self, node: u8, turn: BusTurn) {
        let place = place_of(node);
        let mut held = self.ports[place].lock(self.rt);
        let told = &mut self.told[place];
        if !held.is_of(told.node) {
            wait_for_ever(self.rt);
        }
        held.bus_turn(told, turn);
    }

    fn close(&mut self, node: u8) {
        self.close_at(place_of(node));
    }

    ghost kept_refl = { λ b k. refl };

    ghost kept_trans = { λ a b c k p q. q ∙ p };

    ghost told_first = { λ a b c k t p q. q ∙ p };

    ghost told_last = { λ a b c k t p q. q ∙ ap (λ l. l ++ Turn t ∷ []) p };

    ghost told_same = { λ b k t p. absurd p };

    ghost has_orders = { λ b k few. (record { abort = false; ended = false }, λ e. absurd cc) };

    ghost facts_go_on = { λ a b k count few so facts. tt };
}

/// The place of a node's port, and of the list of what it was told.
fn place_of(node: u8) -> usize
    ensures { result ≡ node }
{
    usize::from(node)
}
