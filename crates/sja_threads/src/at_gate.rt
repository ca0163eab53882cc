//! [`AtGate`]: where the thread of a driver tries the steps of its script.

use super::gate::Gate;
use super::lobby::Lobby;
use super::locked_port::LockedPort;
use super::order::Order;
use super::waits::{SHORT, wait_a_while};
use sja_steps::StepAnswer;
use sja_thread_promises::Pass;
use std::sync::{Mutex, Wait};
use std::thread::Parker;

/// Where the thread of a driver tries the steps of its script (this project's own rule): the port of its node, the gate
/// that is asked before each try, the runtime by which the thread waits, the parker on which it does, and the lobby
/// where it says that it waits long, if there is one.
#[derive(Drop)]
pub(crate) struct AtGate<'a, N: Order, R, G: Drop> {
    pub(crate) rt: &'a R,
    pub(crate) port: &'a Mutex<LockedPort<N>>,
    pub(crate) gate: G,
    pub(crate) parker: Parker,
    pub(crate) lobby: Option<&'a Mutex<Lobby>>,
}

impl<'a, N: Order, R: Wait, G: Gate> AtGate<'a, N, R, G> {
    ghost use Rattle.std.specs.Prelude.{◌≡◌, true, false, None, IfSome};
    ghost use Rattle.sja_thread_promises.specs.Asking.{HasAnswered, IsNextNumber, pass_if, pass_of};
    ghost use Rattle.sja_threads.specs.Inside.StepRuns.{EndsWait};

    /// Where a thread tries steps at this port, as this gate lets it.
    pub(crate) fn new(
        rt: &'a R,
        port: &'a Mutex<LockedPort<N>>,
        gate: G,
        lobby: Option<&'a Mutex<Lobby>>,
    ) -> AtGate<'a, N, R, G>
        ensures { result.gate ≡ gate }
    {
        AtGate {
            rt,
            port,
            gate,
            parker: Parker::new(),
            lobby,
        }
    }

    /// Asks the gate about a try of a node's step, whose number stands in `tries`, until it lets one go, whose number
    /// stands there then. It says whether it does; else it quit.
    pub(crate) fn lets_go(&self, node: u8, step: u32, tries: &mut u32) -> bool
        requires { G.asks self.now.gate node step tries.old }
        ensures never { result ≡ false → G.QUITS ≡ true }
        ensures answered { G.answered self.now.gate node step tries.new (pass_of result) }
    {
        for _ in self.rt.forever() {
            match self.gate.turn(node, step, *tries) {
                Pass::Go => return true,
                Pass::Quit => return false,
                Pass::Hold => self.wait(tries),
            }
        }
        unreachable!()
    }

    /// Waits a while, and counts the next try.
    fn wait(&self, tries: &mut u32)
        ensures { IsNextNumber tries.old tries.new }
    {
        wait_a_while(self.rt, &self.parker, *tries);
        *tries = tries.saturating_add(1);
    }

    /// Waits a while after a node's try in vain, and counts the next one: as the greatest number there is, where
    /// nothing can end the wait any more.
    pub(crate) fn wait_in_vain(&self, node: u8, tries: &mut u32)
        ensures { IsNextNumber tries.old tries.new }
    {
        self.wait(tries);
        if let Some(lobby) = self.lobby {
            if *tries > SHORT && lobby.lock(self.rt).tell_try(node) {
                *tries = u32::MAX;
            }
        }
    }

    /// Waits in a node's step of this number until so many bits have run: what the step answers then, and after how
    /// many; none where the gate quit, which is asked before each look.
    pub(crate) fn wait_for(&self, node: u8, bits: u32, step: u32) -> Option<(StepAnswer, u32)>
        requires { G.asks self.now.gate node step 1 }
        ensures ends { IfSome result (EndsWait bits) }
        ensures never { result ≡ None → G.QUITS ≡ true }
        ensures answered { HasAnswered G.answered self.now.gate node step (pass_if result) }
    {
        let mut tries = 1u32;
        for _ in self.rt.forever() {
            if !self.lets_go(node, step, &mut tries) {
                return None;
            }
            if let Some(end) = self.reached(bits) {
                self.leave(node, tries);
                return Some(end);
            }
            self.wait_in_vain(node, &mut tries);
        }
        unreachable!()
    }

    /// How a wait until so many bits have run ends now by what the port was told, and after how many; none where it
    /// goes on. Where there is no lobby no bits are told, and the gate alone holds the step.
    fn reached(&self, bits: u32) -> Option<(StepAnswer, u32)>
        ensures { IfSome result (EndsWait bits) }
    {
        match self.lobby {
            Some(_) => self.port.lock(self.rt).reached(bits),
            None => Some((StepAnswer::Done, bits)),
        }
    }

    /// A node's step is done, in so many tries.
    pub(crate) fn leave(&self, node: u8, tries: u32) {
        if let Some(lobby) = self.lobby {
            if tries > SHORT {
                lobby.lock(self.rt).leave(node);
            }
        }
    }

    /// A node's driver has ended.
    pub(crate) fn end(&self, node: u8) {
        self.port.lock(self.rt).finish();
        if let Some(lobby) = self.lobby {
            lobby.lock(self.rt).end(node);
        }
    }
}
