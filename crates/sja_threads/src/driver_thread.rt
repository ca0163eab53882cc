//! [`DriverThread`]: a driver in a thread of its own, and the steps of its script, each tried as the gate lets it.

ghost use Rattle.std.specs.Prelude.{◌≡◌, ◌≤◌, false, true, [], length, None};
ghost use Rattle.sja_regs.specs.DriverSettings.{settings_in};
ghost use Rattle.sja_regs.specs.Registers.{at_power_on};
ghost use Rattle.sja_driver.specs.LoggedDrivers.{log_of};
ghost use Rattle.sja_driver.specs.Logs.{HasRoom, IsEmpty, KeepsLog, done_in, done_room};
ghost use Rattle.sja_thread_promises.specs.Asking.{IsLet};
ghost use Rattle.sja_thread_promises.specs.Ordering.{is_at_port};
ghost use Rattle.sja_threads.specs.Working.{HasWorked};
ghost use Rattle.sja_threads.specs.Inside.Names.{IsNamed};

use super::acts_of_node::ActsOfNode;
use super::at_gate::AtGate;
use super::gate::Gate;
use super::handover::Handover;
use super::locked_port::LockedPort;
use super::order::Order;
use sja_driver::{LoggedDriver, WorkLog, by_bytes};
use sja_link::DriverEnd;
use sja_regs::DriverSettings;
use sja_steps::{Step, StepAnswer};
use std::sync::{Mutex, Wait};

/// A driver in a thread of its own (this project's own rule): its node, whether it knows addresses and bytes alone, the
/// driver with its log, what it has set at its port, how many bits had run by what that was told as it last did
/// something there, and its end of the node's links.
///
/// What it has set is its own: it goes into the port before each try there, and what a step sets comes out of it.
#[derive(Drop)]
pub(crate) struct DriverThread<N: Order, D: Drop> {
    pub(crate) bytes: bool,
    pub(crate) driver: LoggedDriver,
    pub(crate) set: DriverSettings,
    pub(crate) found: u32,
    pub(crate) end: D,
    pub(crate) done: ActsOfNode<N>,
}

impl<N: Order, D: DriverEnd + Drop> DriverThread<N, D> {
    ghost use Rattle.sja_thread_promises.specs.declared.pass.Pass.TheVariants.{Go};
    ghost use Rattle.sja_thread_promises.specs.Asking.{pass_if};
    ghost use Rattle.sja_threads.specs.Inside.StepRuns.{HasEnded};
    ghost use Rattle.sja_threads.specs.Inside.Steps.{MayWork, MayBegin, DoesAct};

    /// Tries an act at the port, which is held over the try, and gives its answer; none where it isn't done.
    fn try_at_port(
        &mut self,
        rt: &impl Wait,
        port: &Mutex<LockedPort<N>>,
        act: &Step,
    ) -> Option<StepAnswer>
        requires may { MayWork D.node self.old 1 }
        requires at_port { is_at_port act.now ≡ true }
        ensures { DoesAct D.DriverEnd self.old self.new act.now result }
    {
        let mut held = port.lock(rt);
        if !held.is_of(self.done.node) {
            return None;
        }
        let found = held.bits();
        let Some(answer) = held.try_act(&mut self.done, &mut self.driver, &mut self.end, act) else {
            return None;
        };
        self.set = held.settings();
        self.found = found;
        Some(answer)
    }

    /// Tries an act, and gives its answer; none where it isn't done. The port is held over the try, but not over a
    /// window's or a release's, which see none.
    fn try_act(
        &mut self,
        rt: &impl Wait,
        port: &Mutex<LockedPort<N>>,
        act: &Step,
    ) -> Option<StepAnswer>
        requires { MayWork D.node self.old 1 }
        ensures { DoesAct D.DriverEnd self.old self.new act.now result }
    {
        match act {
            Step::Window => self.driver.step_window(&mut self.end),
            Step::Release => self.driver.step_release(&mut self.end),
            _ => self.try_at_port(rt, port, act),
        }
    }

    /// Does an act in the step of this number. The gate let the try go whose number stands in `tries`; it is asked
    /// before each later one, of which the last one's number stands there then. It gives the act's answer; none where
    /// the gate quit.
    pub(crate) fn do_act<G: Gate, R: Wait>(
        &mut self,
        at: &AtGate<N, R, G>,
        act: &Step,
        number: u32,
        tries: &mut u32,
    ) -> Option<StepAnswer>
        requires may { MayWork D.node self.old 1 }
        requires go { G.answered at.now.gate self.old.done.node number tries.old Go }
        ensures done { DoesAct D.DriverEnd self.old self.new act.now result }
        ensures never { result ≡ None → G.QUITS ≡ true }
        ensures answered { G.answered at.now.gate self.old.done.node number tries.new (pass_if result) }
    {
        for _ in at.rt.forever() {
            if let Some(answer) = self.try_act(at.rt, at.port, act) {
                at.leave(self.done.node, *tries);
                return Some(answer);
            }
            at.wait_in_vain(self.done.node, tries);
            if !at.lets_go(self.done.node, number, tries) {
                return None;
            }
        }
        unreachable!()
    }

    /// What it hands back when its script has ended.
    fn hand_back(self) -> Handover<D>
        ensures { result ≡ record { end = self.end; driver = self.driver; done = self.done.known } }
    {
        let DriverThread {
            driver,
            end,
            done,
            ..
        } = self;
        let ActsOfNode { known, .. } = done;
        Handover {
            end,
            driver,
            done: known,
        }
    }

    /// Does steps, one after the other, until the gate quits.
    fn do_steps<G: Gate, R: Wait>(&mut self, at: &AtGate<N, R, G>, steps: &[Step])
        requires { MayBegin D.node self.old (length steps.now) }
        ensures ended { HasEnded D.DriverEnd G.QUITS self.old self.new steps.now }
        ensures let_by { IsLet G.QUITS G.answered at.now.gate self.old.done.node (length steps.now)
            (length (done_in (log_of self.new.driver))) }
    {
        let mut number = 1u32;
        for k in 0..steps.len() {
            if !self.do_step(at, &steps[k], number) {
                return;
            }
            number = number.saturating_add(1);
        }
    }
}

/// What [`work`] does, of a driver that knows addresses and bytes alone or doesn't (`bytes`) and has this set at its
/// port.
pub(crate) fn follow<N: Order, D: DriverEnd + Drop, G: Gate, R: Wait>(
    at: AtGate<N, R, G>,
    done: ActsOfNode<N>,
    end: D,
    log: WorkLog,
    steps: &[Step],
) -> Handover<D>
    requires none { done.known.list ≡ [] }
    requires empty { IsEmpty log }
    requires room { HasRoom done.version (length steps.now) log }
    requires steps { length steps.now ≤ done_room log }
    requires own { D.node end ≡ done.node }
    ensures same { D.same end result.end }
    ensures worked { HasWorked D.stands (settings_in (at_power_on done.version)) done.node steps.now end result
        result.done.list }
    ensures named { IsNamed N.acts done.node result.done.name }
    ensures keeps { KeepsLog log → KeepsLog (log_of result.driver) }
    ensures let_by { IsLet G.QUITS G.answered at.entry.gate done.node (length steps.now)
        (length (done_in (log_of result.driver))) }
    ensures done { G.QUITS ≡ false → length (done_in (log_of result.driver)) ≡ length steps.now }
{
    let bytes = by_bytes(done.version);
    let set = DriverSettings::at_power_on(done.version);
    let driver = LoggedDriver::new(done.node, log);
    let mut thread = DriverThread {
        bytes,
        driver,
        set,
        found: 0,
        end,
        done,
    };
    thread.do_steps(&at, steps);
    at.end(thread.done.node);
    thread.hand_back()
}

/// The part of a node's driver in a thread of its own (this project's own rule): the steps of its script, one after the
/// other. The gate is asked before each try of a step, by the step's number in the script; so it let each step go that
/// was done. A step that it holds, or that has to wait, is tried again, as often as it takes; where it quits the script
/// ends before the step that it was asked about. At the end the port is marked as one whose driver has ended, and
/// an open activation stays open.
///
/// `end` is the driver's end of the node's links. The port's lock is held over a try, but not over one of `Window` or
/// `Release`. The driver begins with what it finds set at the port, and from then on what it sets is its own: mode
/// bits, IER, EWLR, written error counters, acceptance filter, transmit buffer and version. The log is empty, with room
/// for all steps; no step takes memory.
///
/// A step is one act. In version 3 a write is up to three, one after the other, by what the port shows as it begins:
/// what the driver has set is known, and what the bus brought meanwhile isn't. Where a link gives an item back, the
/// gate is asked again, and the acts that are left are tried. `Read` and `Write` are those of any address there, in
/// either mode, and no controller refuses them. `At` is no act, and here the gate alone holds it. In
/// [`run_threads`](crate::run_threads) it passes once so many bits have run, and is given up where they are spent.
///
/// In the log a step has how many bits had run by what the port was told as the driver last did something there, and a
/// wait for a bit as many as it found.
///
/// The drivers of [`run_threads`](crate::run_threads) do the same, from what is set after power-on. This call serves
/// who runs a bus of his own, and the tests.
pub fn work<'a, N: Order, D: DriverEnd + Drop, G: Gate>(
    rt: &'a impl Wait,
    end: D,
    port: &'a Mutex<LockedPort<N>>,
    done: ActsOfNode<N>,
    steps: &[Step],
    gate: G,
    log: WorkLog,
) -> Handover<D>
    requires none { done.known.list ≡ [] }
    requires empty { IsEmpty log }
    requires room { HasRoom done.version (length steps.now) log }
    requires steps { length steps.now ≤ done_room log }
    requires own { D.node end ≡ done.node }
    ensures same { D.same end result.end }
    ensures worked { HasWorked D.stands (settings_in (at_power_on done.version)) done.node steps.now end result
        result.done.list }
    ensures let_by { IsLet G.QUITS G.answered gate done.node (length steps.now)
        (length (done_in (log_of result.driver))) }
    ensures done { G.QUITS ≡ false → length (done_in (log_of result.driver)) ≡ length steps.now }
{
    follow(AtGate::new(rt, port, gate, None), done, end, log, steps)
}
