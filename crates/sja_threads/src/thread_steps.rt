//! The steps of a driver in its thread: each is one act; in version 3 a write is up to three, a wait for a bit none.

ghost use Rattle.std.specs.Prelude.{◌≡◌, true, false, length};
ghost use Rattle.sja_threads.specs.Inside.StepRuns.{IsTold};

use super::at_gate::AtGate;
use super::driver_thread::DriverThread;
use super::gate::Gate;
use super::locked_port::LockedPort;
use super::never::wait_for_ever;
use super::order::Order;
use sja_driver::{UnmodelledRegisters, WriteSteps, Written, is_reset, steps_of_write};
use sja_link::DriverEnd;
use sja_steps::{Step, StepAnswer};
use std::sync::{Mutex, Wait};

impl<N: Order, D: DriverEnd + Drop> DriverThread<N, D> {
    ghost use Rattle.sja_regs.specs.declared.registers.Registers.{Registers as PortRegisters};
    ghost use Rattle.sja_regs.specs.DriverSettings.{HasSettings};
    ghost use Rattle.sja_driver.specs.StepRuns.{kept_written};
    ghost use Rattle.sja_driver.specs.LoggedDrivers.{kept_of, IsLawful};
    ghost use Rattle.sja_driver.specs.WriteLists.{listed, steps_in};
    ghost use Rattle.sja_steps.specs.declared.step.Step.TheVariants.{Write, At};
    ghost use Rattle.sja_thread_promises.specs.declared.pass.Pass.TheVariants.{Go};
    ghost use Rattle.sja_thread_promises.specs.Asking.{HasAnswered, pass_of};
    ghost use Rattle.sja_threads.specs.Inside.StepRuns.{HasOneAct, BeginsWrite, DoesStep, BreaksOff};
    ghost use Rattle.sja_threads.specs.Inside.Steps.{MayWork, MayStep, DoesParts, LastTakes};

    /// Does a step of this number: the gate is asked before each try. It says whether the step is done; else the gate
    /// quit.
    pub(crate) fn do_step<G: Gate, R: Wait>(
        &mut self,
        at: &AtGate<N, R, G>,
        step: &Step,
        number: u32,
    ) -> bool
        requires may { MayStep D.node self.old 1 }
        requires asks { G.asks at.now.gate self.old.done.node number 1 }
        ensures done { result ≡ true → DoesStep D.DriverEnd self.old self.new step.now }
        ensures quits { result ≡ false → BreaksOff D.DriverEnd self.old self.new step.now }
        ensures never { result ≡ false → G.QUITS ≡ true }
        ensures answered { HasAnswered G.answered at.now.gate self.old.done.node number (pass_of result) }
    {
        if !self.bytes {
            return self.do_one(at, step, number);
        }
        match step {
            Step::Write(address, value) => self.do_write(at, *address, *value, number),
            Step::At(bits) => self.do_wait(at, *bits, number),
            _ => self.do_one(at, step, number),
        }
    }

    /// Waits until so many bits have run, of a driver that knows addresses and bytes alone: no act.
    fn do_wait<G: Gate, R: Wait>(&mut self, at: &AtGate<N, R, G>, bits: u32, number: u32) -> bool
        requires may { MayStep D.node self.old 1 }
        requires bytes { self.old.bytes ≡ true }
        requires asks { G.asks at.now.gate self.old.done.node number 1 }
        ensures done { result ≡ true → DoesStep D.DriverEnd self.old self.new (At bits) }
        ensures quits { result ≡ false → BreaksOff D.DriverEnd self.old self.new (At bits) }
        ensures never { result ≡ false → G.QUITS ≡ true }
        ensures answered { HasAnswered G.answered at.now.gate self.old.done.node number (pass_of result) }
    {
        let Some((answer, found)) = at.wait_for(self.done.node, bits, number) else {
            return false;
        };
        let kept = self.driver.kept();
        self.found = found;
        self.driver.enter(answer, found as u64, kept);
        true
    }

    /// Does a step that is one act.
    fn do_one<G: Gate, R: Wait>(&mut self, at: &AtGate<N, R, G>, step: &Step, number: u32) -> bool
        requires may { MayStep D.node self.old 1 }
        requires one { HasOneAct self.old.bytes step.now }
        requires asks { G.asks at.now.gate self.old.done.node number 1 }
        ensures done { result ≡ true → DoesStep D.DriverEnd self.old self.new step.now }
        ensures quits { result ≡ false → BreaksOff D.DriverEnd self.old self.new step.now }
        ensures never { result ≡ false → G.QUITS ≡ true }
        ensures answered { HasAnswered G.answered at.now.gate self.old.done.node number (pass_of result) }
    {
        let mut tries = 1u32;
        if !at.lets_go(self.done.node, number, &mut tries) {
            return false;
        }
        let bytes = self.bytes;
        let kept = self.kept_by_step(at.rt, at.port, step);
        let Some(answer) = self.do_act(at, step, number, &mut tries) else {
            return false;
        };
        let mut moved = kept;
        moved.answered(&answer);
        self.driver.enter(reply(bytes, &kept, step, answer), self.found as u64, moved);
        true
    }

    /// Does a write of a driver that knows addresses and bytes alone: up to three acts.
    fn do_write<G: Gate, R: Wait>(
        &mut self,
        at: &AtGate<N, R, G>,
        address: u8,
        value: u8,
        number: u32,
    ) -> bool
        requires may { MayStep D.node self.old 1 }
        requires bytes { self.old.bytes ≡ true }
        requires asks { G.asks at.now.gate self.old.done.node number 1 }
        ensures done { result ≡ true → DoesStep D.DriverEnd self.old self.new (Write address value) }
        ensures quits { result ≡ false → BreaksOff D.DriverEnd self.old self.new (Write address value) }
        ensures never { result ≡ false → G.QUITS ≡ true }
        ensures answered { HasAnswered G.answered at.now.gate self.old.done.node number (pass_of result) }
    {
        let mut tries = 1u32;
        if !at.lets_go(self.done.node, number, &mut tries) {
            return false;
        }
        let (steps, mut written) = self.begin_write(at.rt, at.port, address, value);
        if !self.do_parts(at, &steps, number, &mut tries, &mut written) {
            return false;
        }
        self.driver
            .enter(written.answer(), self.found as u64, written.kept);
        true
    }

    /// Does the acts that a write is, one after the other, and says whether all are done; else the gate quit.
    fn do_parts<G: Gate, R: Wait>(
        &mut self,
        at: &AtGate<N, R, G>,
        steps: &WriteSteps,
        number: u32,
        tries: &mut u32,
        on: &mut Written,
    ) -> bool
        requires may { MayWork D.node self.old 1 }
        requires last { LastTakes (steps_in steps.now) }
        requires go { G.answered at.now.gate self.old.done.node number tries.old Go }
        ensures parts { DoesParts D.DriverEnd self.old self.new (steps_in steps.now) result on.old on.new }
        ensures never { result ≡ false → G.QUITS ≡ true }
        ensures answered { G.answered at.now.gate self.old.done.node number tries.new (pass_of result) }
    {
        if !self.do_part(at, &steps.first, number, tries, on) {
            return false;
        }
        if !self.do_part(at, &steps.second, number, tries, on) {
            return false;
        }
        self.do_part(at, &steps.third, number, tries, on)
    }

    /// Does one of them, if it is there.
    fn do_part<G: Gate, R: Wait>(
        &mut self,
        at: &AtGate<N, R, G>,
        part: &Option<Step>,
        number: u32,
        tries: &mut u32,
        on: &mut Written,
    ) -> bool
        requires may { MayWork D.node self.old (length (listed part.now)) }
        requires go { G.answered at.now.gate self.old.done.node number tries.old Go }
        ensures parts { DoesParts D.DriverEnd self.old self.new (listed part.now) result on.old on.new }
        ensures never { result ≡ false → G.QUITS ≡ true }
        ensures answered { G.answered at.now.gate self.old.done.node number tries.new (pass_of result) }
    {
        let Some(act) = part else {
            return true;
        };
        let Some(answer) = self.do_act(at, act, number, tries) else {
            return false;
        };
        on.answered(&answer);
        true
    }

    /// The acts that a write is by what the port shows now, and the write as it begins.
    fn begin_write(
        &mut self,
        rt: &impl Wait,
        port: &Mutex<LockedPort<N>>,
        address: u8,
        value: u8,
    ) -> (WriteSteps, Written)
        requires { MayWork D.node self.old 1 }
        ensures same { self.new ≡ self.old }
        ensures begins { BeginsWrite self.old address value (steps_in result.0) result.1 }
    {
        let mut held = port.lock(rt);
        if !held.is_of(self.done.node) {
            wait_for_ever(rt);
        }
        let found = held.found(&mut self.done);
        let written = Written::begin(found, self.driver.kept(), address, value);
        (steps_of_write(&self.driver, found, address, value), written)
    }

    /// What is kept for the driver once a step has written its value, if it writes one that is kept.
    fn kept_by_step(
        &mut self,
        rt: &impl Wait,
        port: &Mutex<LockedPort<N>>,
        step: &Step,
    ) -> UnmodelledRegisters
        requires { MayWork D.node self.old 1 }
        ensures same { self.new ≡ self.old }
        ensures kept { (p : PortRegisters) × HasSettings p self.old.set
            × (result ≡ kept_written p (kept_of self.old.driver) step.now) }
    {
        let mut kept = self.driver.kept();
        if let Step::Write(address, value) = step {
            let mut held = port.lock(rt);
            if !held.is_of(self.done.node) {
                wait_for_ever(rt);
            }
            kept.write(is_reset(held.found(&mut self.done)), *address, *value);
        }
        kept
    }
}

/// What a step answers whose act answered this: of a driver that knows addresses and bytes alone (`bytes`) a read a
/// value in any case.
fn reply(bytes: bool, kept: &UnmodelledRegisters, step: &Step, answer: StepAnswer) -> StepAnswer
    ensures { IsTold bytes kept.now step.now answer result }
{
    match step {
        Step::Read(address) if bytes => StepAnswer::Value(kept.read_by(*address, &answer)),
        _ => answer,
    }
}
