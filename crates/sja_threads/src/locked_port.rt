//! [`LockedPort`]: a port behind its lock.

ghost use Rattle.std.specs.Prelude.{◌≡◌, ◌++◌, [], ◌∷◌, true, false, IfSome, IfNone};
ghost use Rattle.sja_regs.specs.declared.registers.Registers.{Registers};
ghost use Rattle.sja_regs.specs.DriverSettings.{HasSettings, settings_in};
ghost use Rattle.sja_driver.specs.AnyDrivers.{is_out};
ghost use Rattle.sja_driver.specs.LoggedDrivers.{driver_of, MayStep, StaysLawful, Steps};
ghost use Rattle.sja_thread_promises.specs.Ordering.{LedBy, active_by, bits_told, done_in_order, orders_of};
ghost use Rattle.sja_thread_promises.specs.declared.port_update.PortUpdate.TheVariants.{Turn, Ran, Spent};
ghost use Rattle.sja_threads.specs.Inside.StepRuns.{EndsWait};
ghost use Rattle.sja_threads.specs.Inside.Names.{IsNamed};
ghost use Rattle.sja_threads.specs.Inside.Ordered.{LockedValue, IsInOrder, set_after, done_if};

use super::acts_of_node::ActsOfNode;
use super::halves::{add, agree};
use super::kept_half::KeptHalf;
use super::known_half::KnownHalf;
use super::order::Order;
use super::turns_of_node::TurnsOfNode;
use sja_driver::LoggedDriver;
use sja_link::DriverEnd;
use sja_regs::{BusTurn, DriverSettings, Orders, Port};
use sja_steps::{Refusal, Step, StepAnswer};
use sja_thread_promises::{PortAct, PortUpdate};
use std::marker::{Model, PhantomData};

/// A port behind its lock (this project's own rule): that of a node, how many bits have run by what it was told, for
/// how many its driver waits, and the lists of what it was told and of the acts that its driver did there. The lists
/// are known to contracts alone, and the port is always as they have led to. Who adds to one has its other half.
#[derive(Drop)]
pub struct LockedPort<N: Order> {
    node: u8,
    port: Port,
    bits: u32,
    awaited: u32,
    turns: KeptHalf<PortUpdate>,
    acts: KeptHalf<PortAct>,
    order: PhantomData<N>,
}

impl<N: Order> Model for LockedPort<N> {
    ghost Value = { LockedValue };

    ghost view = { λ l. record {
      node = l.node;
      registers = l.port;
      bits = l.bits;
      turns_name = l.turns.name;
      turns = l.turns.list;
      acts_name = l.acts.name;
      acts = l.acts.list;
    } };

    ghost invariant = { λ l. IsInOrder N.version N.turns N.acts (record {
      node = l.node;
      registers = l.port;
      bits = l.bits;
      turns_name = l.turns.name;
      turns = l.turns.list;
      acts_name = l.acts.name;
      acts = l.acts.list;
    }) };
}

impl<N: Order> LockedPort<N> {
    /// The port of a node after power-on, to which nothing came yet.
    pub(crate) fn new(
        node: u8,
        version: u8,
        turns: KeptHalf<PortUpdate>,
        acts: KeptHalf<PortAct>,
    ) -> LockedPort<N>
        requires version { version ≡ N.version }
        requires turns { IsNamed N.turns node turns.name × (turns.list ≡ []) }
        requires acts { IsNamed N.acts node acts.name × (acts.list ≡ []) }
    {
        LockedPort {
            node,
            port: Port::new(version),
            bits: 0,
            awaited: 0,
            turns,
            acts,
            order: PhantomData,
        }
    }

    /// Whether it is this node's.
    pub(crate) fn is_of(&self, node: u8) -> bool
        ensures { result ≡ true → self.now.node ≡ node }
    {
        self.node == node
    }

    /// What the driver wants of the bus.
    pub fn orders(&self) -> Orders
        ensures { result ≡ orders_of self.now.registers }
    {
        self.port.orders()
    }

    /// What its driver has set there.
    pub(crate) fn settings(&self) -> DriverSettings
        ensures { result ≡ settings_in self.now.registers }
    {
        self.port.settings()
    }

    /// Tells it what a bit brought.
    pub(crate) fn bus_turn(&mut self, told: &mut TurnsOfNode<N>, turn: BusTurn)
        requires { self.old.node ≡ told.old.node }
        ensures told { told.new.known.list ≡ told.old.known.list ++ Turn turn ∷ [] }
        ensures node { told.new.node ≡ told.old.node }
    {
        self.port.bus_turn(&turn);
        self.bits = self.bits.saturating_add(1);
        told.abort = false;
        add(&mut self.turns, &mut told.known, &PortUpdate::Turn(turn));
    }

    /// Tells it how many bits have run, and finds what its driver orders, and for how many it waits.
    pub(crate) fn tell_bits(&mut self, told: &mut TurnsOfNode<N>, bits: u32)
        requires { self.old.node ≡ told.old.node }
        ensures told { told.new.known.list ≡ told.old.known.list ++ Ran bits (orders_of self.old.registers) ∷ [] }
        ensures node { told.new.node ≡ told.old.node }
    {
        self.bits = bits;
        let orders = self.port.orders();
        told.ended |= orders.ended;
        told.abort = orders.abort;
        told.awaited = self.awaited;
        add(
            &mut self.turns,
            &mut told.known,
            &PortUpdate::Ran(bits, orders),
        );
    }

    /// How many bits have run by what it was told.
    pub fn bits(&self) -> u32
        ensures told { result ≡ bits_told self.now.turns }
        ensures bits { result ≡ self.now.bits }
    {
        self.bits
    }

    /// How its driver's wait until so many bits have run ends now, and after how many by what was told: it is done
    /// where these have, and else given up where none are left; none where it goes on.
    pub(crate) fn reached(&mut self, bits: u32) -> Option<(StepAnswer, u32)>
        ensures ends { IfSome result (EndsWait bits) }
        ensures bits { IfSome result (λ end. end.1 ≡ bits_told self.old.turns) }
    {
        if self.bits >= bits {
            return Some((StepAnswer::Done, self.bits));
        }
        if self.port.closed() {
            return Some((StepAnswer::Refused(Refusal::Closed), self.bits));
        }
        self.awaited = bits;
        None
    }

    /// Marks that the bus has no bits left.
    pub fn close(&mut self, told: &mut TurnsOfNode<N>)
        requires { self.old.node ≡ told.old.node }
        ensures told { told.new.known.list ≡ told.old.known.list ++ Spent ∷ [] }
        ensures node { told.new.node ≡ told.old.node }
    {
        self.port.close();
        told.abort = false;
        add(&mut self.turns, &mut told.known, &PortUpdate::Spent);
    }

    /// Marks that the driver has ended.
    pub(crate) fn finish(&mut self) {
        self.port.finish();
    }

    /// The port, as its driver finds it.
    pub(crate) fn found(&mut self, done: &mut ActsOfNode<N>) -> &Port
        requires { self.old.node ≡ done.old.node }
        ensures has { HasSettings result.now (set_after done.old.version done.old.known.list) }
        ensures done { done.new ≡ done.old }
    {
        agree(&mut self.acts, &mut done.known);
        &self.port
    }

    /// Compares it with these lists of its node.
    pub(crate) fn compare(&mut self, told: &mut TurnsOfNode<N>, done: &mut KnownHalf<PortAct>)
        requires node { self.old.node ≡ told.old.node }
        requires named { IsNamed N.acts self.old.node done.old.name }
        ensures told { (told.new.node ≡ told.old.node) × (told.new.known ≡ told.old.known) }
        ensures done { done.new ≡ done.old }
        ensures led { (p : Registers) × LedBy N.version told.old.known.list done.old.list p }
    {
        agree(&mut self.turns, &mut told.known);
        agree(&mut self.acts, done);
    }

    /// Tries an act there, and gives its answer; none where it isn't done.
    pub(crate) fn try_act<D: DriverEnd>(
        &mut self,
        done: &mut ActsOfNode<N>,
        driver: &mut LoggedDriver,
        end: &mut D,
        act: &Step,
    ) -> Option<StepAnswer>
        requires node { self.old.node ≡ done.old.node }
        requires active { active_by false (done_in_order done.old.known.list) ≡ is_out (driver_of driver.old) }
        requires may { MayStep D.node done.old.version driver.old end.old }
        ensures stays { StaysLawful D.same D.stands driver.old driver.new end.old end.new result }
        ensures steps { Steps D.same D.stands D.dry D.full driver.old driver.new end.old end.new
            self.old.registers self.new.registers act.now result }
        ensures has { HasSettings self.old.registers (set_after done.old.version done.old.known.list) }
        ensures done { done_in_order done.new.known.list
            ≡ done_in_order done.old.known.list ++ done_if act.now result self.old.bits }
        ensures set { IfSome result (λ a.
            set_after done.new.version done.new.known.list ≡ settings_in self.new.registers) }
        ensures waits { IfNone result (done.new ≡ done.old) }
        ensures node { (done.new.node ≡ done.old.node) × (done.new.version ≡ done.old.version) }
    {
        agree(&mut self.acts, &mut done.known);
        let Some(answer) = driver.step(end, &mut self.port, act) else {
            return None;
        };
        let one = PortAct {
            step: act.copy(),
            answer: answer.copy(),
            set: self.port.settings(),
            bits: self.bits,
        };
        add(&mut self.acts, &mut done.known, &one);
        Some(answer)
    }
}
