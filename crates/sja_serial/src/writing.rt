//! A write of a driver that knows addresses and bytes alone: most are one act, some are two or three.

use super::serial_run::SerialRun;
use sja_driver::{Written, is_start, is_stop, is_typed_write, steps_of_write, written_command};
use sja_regs::address::{CMR, MOD};
use sja_steps::Step;

impl SerialRun {
    ghost use Rattle.std.specs.Prelude.{◌≡◌, List, true, ◌∷◌, []};
    ghost use Rattle.sja_driver.specs.StepRuns.{StepRun, by_bytes};
    ghost use Rattle.sja_driver.specs.WriteLists.{IsPrompt};
    ghost use Rattle.sja_steps.specs.declared.step.Step.TheVariants.{Write};
    ghost use Rattle.sja_serial.specs.Inside.Accessing.{IsSteps};
    ghost use Rattle.sja_serial.specs.Serial.{Setup, StandsBy, IsRunBy};
    ghost use Rattle.sja_serial.specs.Stepping.{DoesStep, HasRoomLeft};

    /// A write of a byte to an address.
    #[inline(always)]
    pub(crate) fn write(&mut self, node: u8, address: u8, value: u8)
        ghost setup: { Setup }
        requires run { IsRunBy setup self.old }
        requires room { HasRoomLeft setup self.old node }
        requires bytes { by_bytes setup.version ≡ true }
        ensures { (step_runs : List (List StepRun)) → StandsBy setup self.old step_runs →
            DoesStep setup self.old self.new node (Write address value) step_runs }
    {
        if is_typed_write(&self.board.ports[usize::from(node)], address, value) {
            return self.write_alone(node, address, value, &Step::Write(address, value));
        }
        if address == CMR {
            return self.write_command(node, value);
        }
        self.write_mode(node, value);
    }

    /// A write of a command.
    #[inline(never)]
    fn write_command(&mut self, node: u8, value: u8)
        ghost setup: { Setup }
        requires run { IsRunBy setup self.old }
        requires room { HasRoomLeft setup self.old node }
        requires bytes { by_bytes setup.version ≡ true }
        ensures { (step_runs : List (List StepRun)) → StandsBy setup self.old step_runs →
            DoesStep setup self.old self.new node (Write 1 value) step_runs }
    {
        let written = written_command(&self.board.ports[usize::from(node)], value);
        if written.releases {
            if written.command == 0 {
                return self.write_alone(node, CMR, value, &Step::Release);
            }
        } else if written.command != 0 {
            return self.write_alone(node, CMR, value, &Step::Command(written.command));
        }
        self.write_parts(node, CMR, value);
    }

    /// A write of a mode that isn't the same write of a typed driver.
    #[inline(always)]
    fn write_mode(&mut self, node: u8, value: u8)
        ghost setup: { Setup }
        requires run { IsRunBy setup self.old }
        requires room { HasRoomLeft setup self.old node }
        requires bytes { by_bytes setup.version ≡ true }
        ensures { (step_runs : List (List StepRun)) → StandsBy setup self.old step_runs →
            DoesStep setup self.old self.new node (Write 0 value) step_runs }
    {
        let place = usize::from(node);
        let port = &self.board.ports[place];
        if is_stop(port, value) {
            return self.write_alone(node, MOD, value, &Step::Stop);
        }
        if is_start(&self.drivers[place], port, value) {
            return self.write_alone(node, MOD, value, &Step::Start);
        }
        self.write_parts(node, MOD, value);
    }

    /// A write that is this one act.
    #[inline(always)]
    fn write_alone(&mut self, node: u8, address: u8, value: u8, step: &Step)
        ghost setup: { Setup }
        requires run { IsRunBy setup self.old }
        requires room { HasRoomLeft setup self.old node }
        requires bytes { by_bytes setup.version ≡ true }
        requires prompt { IsPrompt step.now }
        requires one { IsSteps setup self.old node address value (step.now ∷ []) }
        ensures { (step_runs : List (List StepRun)) → StandsBy setup self.old step_runs →
            DoesStep setup self.old self.new node (Write address value) step_runs }
    {
        let mut written = self.begin_write(node, address, value);
        match self.act(node, step) {
            Some(answer) => {
                written.answered(&answer);
                self.enter(node, written.answer(), written.kept);
            }
            None => unreachable!(),
        }
    }
}

impl SerialRun {
    ghost use Rattle.std.specs.Prelude.{◌≡◌, ◌+◌, ◌<◌, List, true, length, slice_index_or};
    ghost use Rattle.sja_driver.specs.StepRuns.{StepRun, step_runs_at, by_bytes, acts_in};
    ghost use Rattle.sja_driver.specs.TypedActs.{TypedAct};
    ghost use Rattle.sja_driver.specs.WriteLists.{IsPromptIf};
    ghost use Rattle.sja_steps.specs.declared.step.Step.TheVariants.{Write};
    ghost use Rattle.sja_serial.specs.Inside.Accessing.{BeginsWrite, DoesActs, DoesPart};
    ghost use Rattle.sja_serial.specs.Serial.{Setup, SerialValue, StandsBy, IsRunBy};
    ghost use Rattle.sja_serial.specs.Stepping.{DoesStep, HasActLeft, HasRoomLeft};

    /// A write, whatever acts it is, none to three.
    #[inline(always)]
    fn write_parts(&mut self, node: u8, address: u8, value: u8)
        ghost setup: { Setup }
        requires run { IsRunBy setup self.old }
        requires room { HasRoomLeft setup self.old node }
        requires bytes { by_bytes setup.version ≡ true }
        ensures { (step_runs : List (List StepRun)) → StandsBy setup self.old step_runs →
            DoesStep setup self.old self.new node (Write address value) step_runs }
    {
        // Asked for what holds of every bus.
        let _ = self.bits_left();
        let place = usize::from(node);
        let port = &self.board.ports[place];
        let steps = steps_of_write(&self.drivers[place], port, address, value);
        let written = self.begin_write(node, address, value);
        let written = self.part(node, &steps.first, written);
        let written = self.part(node, &steps.second, written);
        let written = self.part(node, &steps.third, written);
        self.enter(node, written.answer(), written.kept);
    }

    /// A write as it begins, by the registers that it finds.
    #[inline(always)]
    fn begin_write(&self, node: u8, address: u8, value: u8) -> Written
        requires driver { node < length self.now.drivers }
        requires port { node < length self.now.ports }
        ensures { BeginsWrite self.now node address value result }
    {
        let place = usize::from(node);
        let kept = self.drivers[place].kept();
        Written::begin(&self.board.ports[place], kept, address, value)
    }

    /// The next part of such a write, if there is one, and how the write goes on by it.
    #[inline(always)]
    fn part(&mut self, node: u8, part: &Option<Step>, on: Written) -> Written
        ghost setup: { Setup }
        requires prompt { IsPromptIf part.now }
        requires room { HasActLeft setup self.old node }
        ensures { (was : SerialValue) (step_runs : List (List StepRun)) (more : List TypedAct) →
            StandsBy setup was step_runs → DoesActs setup was self.old node step_runs more →
            length (acts_in (step_runs_at step_runs node)) + length more < slice_index_or setup.steps node 0 →
            DoesPart setup was self.new node step_runs more part.now on result }
    {
        let Some(step) = part else {
            return on;
        };
        match self.act(node, step) {
            Some(answer) => {
                let mut written = on;
                written.answered(&answer);
                written
            }
            None => unreachable!(),
        }
    }
}
