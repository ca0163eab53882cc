//! What is seen of a run between its turns.

use super::serial_run::SerialRun;
use sja_driver::LoggedDriver;
use sja_regs::{BufferView, Port};

impl SerialRun {
    ghost use Rattle.std.specs.Prelude.{◌≡◌, ◌<◌, length, slice_index_or};

    /// How many bits were run.
    pub fn bits(&self) -> u64
        ensures { result ≡ self.now.bits }
    {
        self.bits
    }

    /// The driver of a node, counted from 0, with its log.
    pub fn driver(&self, node: usize) -> &LoggedDriver
        requires { node < length self.now.drivers }
        ensures { result.now ≡ slice_index_or self.now.drivers node result.now }
    {
        &self.drivers[node]
    }

    /// The registers of a node's controller, counted from 0.
    pub fn port(&self, node: usize) -> &Port
        requires { node < length self.now.ports }
        ensures { result.now ≡ slice_index_or self.now.ports node result.now }
    {
        &self.board.ports[node]
    }
}

impl SerialRun {
    ghost use Rattle.std.specs.Prelude.{◌≡◌, ◌<◌, ℕ, List, length, slice_index_or};
    ghost use Rattle.sja_driver.specs.declared.logged_driver.LoggedDriver.{LoggedDriver as Logged};
    ghost use Rattle.sja_driver.specs.LoggedDrivers.{kept_of};
    ghost use Rattle.sja_driver.specs.TypedActs.{TypedAct, acts_at, is_active};
    ghost use Rattle.sja_promises.specs.Registering.{seen_now};
    ghost use Rattle.sja_regs.specs.declared.registers.Registers.{Registers};
    ghost use Rattle.sja_regs.specs.InterruptLine.{is_line_active};
    ghost use Rattle.sja_driver.specs.StepRuns.{StepRun};
    ghost use Rattle.sja_serial.specs.Accounts.{AreAccountsNow};
    ghost use Rattle.sja_serial.specs.Serial.{Setup, StandsAt, StandsBy, IsRunOf};
    ghost use Rattle.sja_bus_rules.specs.Wire.{journal_at};

    /// By which version of the model it runs.
    pub fn version(&self) -> u8
        ghost setup: { Setup }
        requires { IsRunOf setup self.now }
        ensures { result ≡ setup.version }
    {
        self.board.ports[0].version()
    }

    /// The headline of each activation that a driver has begun holds at this moment: what it released, followed by what
    /// lies unread, is what its controller validly received and its filter passed, less what was marked overrun. It
    /// does nothing: a caller who needs that calls it for its contract.
    #[inline(always)]
    pub fn accounts(&self)
        ghost setup: { Setup }
        requires { IsRunOf setup self.now }
        ensures { AreAccountsNow self.now }
    {
        let _ = self.bus.bits_run();
    }

    /// What a read of the registers of a node, counted from 0, sees of the messages now. All that has come for its
    /// driver is taken in first. That is no step, and no bit is run.
    #[inline(always)]
    pub(crate) fn seen(&mut self, node: u8) -> BufferView
        ghost setup: { Setup }
        requires run { IsRunOf setup self.old }
        requires node { node < setup.nodes }
        ensures seen { (acts : List (List TypedAct)) → StandsAt setup self.old acts → result
            ≡ seen_now (is_active (acts_at acts node)) (journal_at self.old.bus.journals node) (acts_at acts node) }
        ensures stands { (acts : List (List TypedAct)) → StandsAt setup self.old acts →
            StandsAt setup self.new acts }
        ensures by { (step_runs : List (List StepRun)) → StandsBy setup self.old step_runs →
            StandsBy setup self.new step_runs }
        ensures bus { self.new.bus ≡ self.old.bus }
        ensures ports { self.new.ports ≡ self.old.ports }
        ensures bits { self.new.bits ≡ self.old.bits }
        ensures kept { (m : ℕ) (d : Logged) → m < length self.old.drivers →
            kept_of (slice_index_or self.new.drivers m d) ≡ kept_of (slice_index_or self.old.drivers m d) }
    {
        let index = usize::from(node);
        if index >= self.drivers.len() || self.bus.bits_run() != self.bits {
            unreachable!()
        }
        let end = &mut self.links[index];
        self.drivers[index].seen(end)
    }

    /// Whether the interrupt line of a node, counted from 0, is active: some bit of IR is 1, as a read of it would
    /// answer now (SJA1000 data sheet, 6.4.6). All that has come for its driver is taken in first. That is no step: it
    /// clears nothing, and no bit is run.
    pub fn irq(&mut self, node: u8) -> bool
        ghost setup: { Setup }
        requires run { IsRunOf setup self.old }
        requires node { node < setup.nodes }
        ensures line { (acts : List (List TypedAct)) → StandsAt setup self.old acts → (p : Registers) → result
            ≡ is_line_active (slice_index_or self.old.ports node p) (seen_now (is_active (acts_at acts node))
            (journal_at self.old.bus.journals node) (acts_at acts node)) }
        ensures stands { (acts : List (List TypedAct)) → StandsAt setup self.old acts →
            StandsAt setup self.new acts }
        ensures by { (step_runs : List (List StepRun)) → StandsBy setup self.old step_runs →
            StandsBy setup self.new step_runs }
        ensures bus { self.new.bus ≡ self.old.bus }
        ensures ports { self.new.ports ≡ self.old.ports }
        ensures bits { self.new.bits ≡ self.old.bits }
        ensures kept { (m : ℕ) (d : Logged) → m < length self.old.drivers →
            kept_of (slice_index_or self.new.drivers m d) ≡ kept_of (slice_index_or self.old.drivers m d) }
    {
        let seen = self.seen(node);
        self.port(usize::from(node)).irq(&seen)
    }
}
