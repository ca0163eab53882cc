//! One step of a script at the right one of a node's links, with its answer.

ghost use Rattle.std.specs.Prelude.{◌≢◌};
ghost use Rattle.sja_journal.specs.Lists.{OthersStand};
ghost use Rattle.sja_regs.specs.declared.registers.Registers.{Registers};
ghost use Rattle.sja_steps.specs.declared.step.Step.TheVariants.{Stop, Window, Release};
ghost use Rattle.sja_driver.specs.Acting.{ActsOn};
ghost use Rattle.sja_driver.specs.AnyDrivers.{link_used};
ghost use Rattle.sja_driver.specs.Inside.Attempts.{FitsEnd, tried_of};
ghost use Rattle.sja_driver.specs.LoggedDrivers.{MayRelease, MayStep, StaysLawful, Steps};

use super::active_steps::{
    await_step, command_step, load_step, release_step, sent_step, window_step,
};
use super::any_driver::AnyDriver;
use super::attempt::{Attempt, passed};
use super::changing::{start_step, stop_step};
use super::logged_driver::LoggedDriver;
use super::register_steps::{interrupt_step, read_step, write_step};
use sja_link::DriverEnd;
use sja_regs::Port;
use sja_steps::{Step, StepAnswer};

impl LoggedDriver {
    /// Tries a step at the link of the present activation, and logs what came of it. It gives the step's answer; none
    /// where it isn't done, and is to be tried again. The end has to be that of the node.
    #[inline(always)]
    pub fn step<E: DriverEnd>(
        &mut self,
        end: &mut E,
        port: &mut Port,
        step: &Step,
    ) -> Option<StepAnswer>
        requires { MayStep E.node port.old.version self.old end.old }
        ensures stays { StaysLawful E.same E.stands self.old self.new end.old end.new result }
        ensures steps { Steps E.same E.stands E.dry E.full self.old self.new end.old end.new port.old port.new
            step.now result }
    {
        if matches!(step, Step::Stop) {
            return self.step_stop(end, port);
        }
        let attempt = try_step(&mut self.driver, end, port, step);
        self.log.enter(attempt)
    }

    /// The step `Window`, as [`step`](LoggedDriver::step) does it, for a caller that holds no port: it sees none and
    /// waits for nobody.
    pub fn step_window<E: DriverEnd>(&mut self, end: &mut E) -> Option<StepAnswer>
        requires { MayRelease E.node self.old end.old }
        ensures stays { StaysLawful E.same E.stands self.old self.new end.old end.new result }
        ensures steps { (p : Registers) → Steps E.same E.stands E.dry E.full self.old self.new end.old end.new
            p p Window result }
    {
        let attempt = window_step(&mut self.driver, end);
        self.log.enter(attempt)
    }

    /// The step `Release`, as [`step`](LoggedDriver::step) does it, for a caller that holds no port: it sees none and
    /// waits for nobody.
    pub fn step_release<E: DriverEnd>(&mut self, end: &mut E) -> Option<StepAnswer>
        requires { MayRelease E.node self.old end.old }
        ensures stays { StaysLawful E.same E.stands self.old self.new end.old end.new result }
        ensures steps { (p : Registers) → Steps E.same E.stands E.dry E.full self.old self.new end.old end.new
            p p Release result }
    {
        let attempt = release_step(&mut self.driver, end);
        self.log.enter(attempt)
    }
}

impl LoggedDriver {
    /// The step `Stop`, as [`step`](LoggedDriver::step) does it. It alone has a ledger to be logged, which is large.
    fn step_stop<E: DriverEnd>(&mut self, end: &mut E, port: &mut Port) -> Option<StepAnswer>
        requires { MayStep E.node port.old.version self.old end.old }
        ensures stays { StaysLawful E.same E.stands self.old self.new end.old end.new result }
        ensures steps { Steps E.same E.stands E.dry E.full self.old self.new end.old end.new port.old port.new
            Stop result }
    {
        let stopped = stop_step(&mut self.driver, end, port);
        self.log.enter_stop(stopped)
    }
}

/// Tries a step other than a stop. Each has a function of its own, which takes the driver in either state.
#[inline(always)]
fn try_step<E: DriverEnd>(
    driver: &mut AnyDriver,
    end: &mut E,
    port: &mut Port,
    step: &Step,
) -> Attempt
    requires fits { FitsEnd E.node end.old driver.old }
    requires goes_on { step.now ≢ Stop }
    ensures same { E.same end.old end.new }
    ensures others { OthersStand E.stands (link_used driver.old) end.old end.new }
    ensures acts { ActsOn E.same E.stands E.dry E.full end.old end.new port.old port.new step.now driver.old driver.new
        (tried_of result) }
{
    match step {
        Step::Start => start_step(driver, end, port),
        Step::Stop => unreachable!(),
        Step::Window => window_step(driver, end),
        Step::Release => release_step(driver, end),
        Step::Read(addr) => read_step(driver, end, port, *addr),
        Step::Write(addr, value) => write_step::<E>(driver, port, *addr, *value),
        Step::Load(message) => load_step::<E>(driver, port, message),
        Step::Command(value) => command_step(driver, end, port, *value),
        Step::Await(count) => await_step(driver, end, port, *count),
        Step::Sent => sent_step(driver, end, port),
        Step::Interrupt => interrupt_step(driver, end, port),
        Step::At(_) => passed(),
    }
}
