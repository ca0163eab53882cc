//! A step of a node's driver. In version 3 a read and a write are those of a driver that knows addresses and bytes
//! alone.

use super::drivers::FIRST_BY_BYTES;
use super::serial_run::SerialRun;
use sja_driver::{UnmodelledRegisters, is_reset};
use sja_steps::{Step, StepAnswer};

impl SerialRun {
    ghost use Rattle.std.specs.Prelude.{◌≡◌, List, true, false};
    ghost use Rattle.sja_driver.specs.StepRuns.{StepRun};
    ghost use Rattle.sja_serial.specs.Serial.{Setup, StandsBy, IsRunBy};
    ghost use Rattle.sja_serial.specs.Stepping.{DoesStep, WaitsFor, HasRoomLeft};

    /// Tries this step of the driver of a node, counted from 0, and takes what it gave: the bus refuses no item of it.
    /// It says whether the step is done; else it has to wait, and nothing happened. No bit is run.
    #[inline(always)]
    pub fn step(&mut self, node: u8, step: &Step) -> bool
        ghost setup: { Setup }
        requires run { IsRunBy setup self.old }
        requires room { HasRoomLeft setup self.old node }
        ensures done { result ≡ true → (step_runs : List (List StepRun)) → StandsBy setup self.old step_runs →
            DoesStep setup self.old self.new node step.now step_runs }
        ensures waits { result ≡ false → (step_runs : List (List StepRun)) → StandsBy setup self.old step_runs →
            WaitsFor setup self.old self.new node step.now step_runs }
    {
        if self.version() < FIRST_BY_BYTES {
            return self.one_act(node, step);
        }
        match step {
            Step::Read(address) => {
                self.read(node, *address);
                true
            }
            Step::Write(address, value) => {
                self.write(node, *address, *value);
                true
            }
            Step::At(bits) => self.reach(node, *bits),
            _ => self.one_act(node, step),
        }
    }
}

impl SerialRun {
    ghost use Rattle.std.specs.Prelude.{◌≡◌, ◌≤◌, ◌+◌, ◌<◌, ℕ, List, true, false, length, slice_index_or};
    ghost use Rattle.sja_driver.specs.StepRuns.{StepRun, IsOneAct, step_runs_at, by_bytes, acts_in, kept_written};
    ghost use Rattle.sja_driver.specs.TypedActs.{TypedAct};
    ghost use Rattle.sja_driver.specs.declared.logged_driver.LoggedDriver.{LoggedDriver as Logged};
    ghost use Rattle.sja_driver.specs.LoggedDrivers.{kept_of, log_of};
    ghost use Rattle.sja_regs.specs.declared.registers.Registers.{Registers};
    ghost use Rattle.sja_driver.specs.Logs.{done_in, done_room};
    ghost use Rattle.sja_driver.specs.WriteLists.{IsPromptIf};
    ghost use Rattle.sja_steps.specs.declared.step.Step.TheVariants.{Read, Write, At};
    ghost use Rattle.sja_serial.specs.Inside.Accessing.{DoesActs, DoesPart, Enters};
    ghost use Rattle.sja_serial.specs.Serial.{Setup, SerialValue, StandsBy, IsRunBy};
    ghost use Rattle.sja_serial.specs.Stepping.{DoesStep, WaitsFor, HasActLeft, HasRoomLeft};

    /// A step that is one act.
    #[inline(always)]
    fn one_act(&mut self, node: u8, step: &Step) -> bool
        ghost setup: { Setup }
        requires run { IsRunBy setup self.old }
        requires room { HasRoomLeft setup self.old node }
        requires one { IsOneAct (by_bytes setup.version) step.now }
        ensures done { result ≡ true → (step_runs : List (List StepRun)) → StandsBy setup self.old step_runs →
            DoesStep setup self.old self.new node step.now step_runs }
        ensures waits { result ≡ false → (step_runs : List (List StepRun)) → StandsBy setup self.old step_runs →
            WaitsFor setup self.old self.new node step.now step_runs }
    {
        let mut kept = self.kept_by_step(node, step);
        match self.act(node, step) {
            Some(answer) => {
                kept.answered(&answer);
                self.enter(node, answer, kept);
                true
            }
            None => false,
        }
    }

    /// A read of an address, of a driver that knows addresses and bytes alone.
    #[inline(always)]
    fn read(&mut self, node: u8, address: u8)
        ghost setup: { Setup }
        requires run { IsRunBy setup self.old }
        requires room { HasRoomLeft setup self.old node }
        requires bytes { by_bytes setup.version ≡ true }
        ensures { (step_runs : List (List StepRun)) → StandsBy setup self.old step_runs →
            DoesStep setup self.old self.new node (Read address) step_runs }
    {
        let step = Step::Read(address);
        let mut kept = self.kept_by_step(node, &step);
        match self.act(node, &step) {
            Some(answer) => {
                let value = kept.read_by(address, &answer);
                kept.answered(&answer);
                self.enter(node, StepAnswer::Value(value), kept);
            }
            None => unreachable!(),
        }
    }

    /// A wait until so many bits have run, of a driver that knows addresses and bytes alone: it is no act. It says
    /// whether they have; else nothing happened.
    #[inline(never)]
    fn reach(&mut self, node: u8, bits: u32) -> bool
        ghost setup: { Setup }
        requires run { IsRunBy setup self.old }
        requires room { HasRoomLeft setup self.old node }
        requires bytes { by_bytes setup.version ≡ true }
        ensures done { result ≡ true → (step_runs : List (List StepRun)) → StandsBy setup self.old step_runs →
            DoesStep setup self.old self.new node (At bits) step_runs }
        ensures waits { result ≡ false → (step_runs : List (List StepRun)) → StandsBy setup self.old step_runs →
            WaitsFor setup self.old self.new node (At bits) step_runs }
    {
        // Asked for what holds of every bus.
        let _ = self.bits_left();
        if self.bits < (bits as u64) {
            return false;
        }
        let kept = self.kept_by_step(node, &Step::At(bits));
        self.enter(node, StepAnswer::Done, kept);
        true
    }

    /// What is kept for the driver of a node once a step has written its value, if it writes one that is kept.
    #[inline(always)]
    pub(crate) fn kept_by_step(&self, node: u8, step: &Step) -> UnmodelledRegisters
        requires driver { node < length self.now.drivers }
        requires port { node < length self.now.ports }
        ensures { (d : Logged) (p : Registers) → result ≡ kept_written (slice_index_or self.now.ports node p)
            (kept_of (slice_index_or self.now.drivers node d)) step.now }
    {
        let place = usize::from(node);
        let mut kept = self.drivers[place].kept();
        if let Step::Write(address, value) = step {
            kept.write(is_reset(&self.board.ports[place]), *address, *value);
        }
        kept
    }

    /// Enters a step of a node as done.
    #[inline(always)]
    pub(crate) fn enter(&mut self, node: u8, answer: StepAnswer, kept: UnmodelledRegisters)
        requires there { node < length self.old.drivers }
        requires room { (d : Logged) → length (done_in (log_of (slice_index_or self.old.drivers node d)))
            < done_room (log_of (slice_index_or self.old.drivers node d)) }
        ensures { Enters self.old self.new node answer kept }
    {
        self.drivers[usize::from(node)].enter(answer, self.bits, kept);
    }
}
