//! The driver of a node with its log, and its logged step.

ghost use Rattle.std.specs.Prelude.{◌≡◌, ◌<◌, ◌++◌, ℕ, [], ◌∷◌, length, false};
ghost use Rattle.sja_driver.specs.AnyDrivers.{is_out, opened_of, held_of};
ghost use Rattle.sja_driver.specs.LoggedDrivers.{node_of, driver_of, log_of, kept_of, IsLawful};
ghost use Rattle.sja_driver.specs.Kept.{at_power_on};
ghost use Rattle.sja_driver.specs.Logs.{IsEmpty, Traces, done_in, done_room};

use super::any_driver::AnyDriver;
use super::driver::Driver;
use super::unmodelled_registers::UnmodelledRegisters;
use super::work_log::WorkLog;
use can_frame::Message;
use sja_steps::StepAnswer;

/// The driver of a node, in either state, with the log of what it did (this project's own rule).
///
/// Its steps ([`step`](LoggedDriver::step) and its two companions) are what a turn in one thread and a driver's own
/// thread both call.
#[derive(Debug, Drop)]
pub struct LoggedDriver {
    pub(crate) node: u8,
    pub(crate) driver: AnyDriver,
    pub(crate) log: WorkLog,
    pub(crate) kept: UnmodelledRegisters,
}

impl LoggedDriver {
    /// The driver of a node before its first activation, with an empty log.
    pub fn new(node: u8, log: WorkLog) -> LoggedDriver
        requires empty { IsEmpty log }
        ensures node { node_of result ≡ node }
        ensures log { log_of result ≡ log }
        ensures kept { kept_of result ≡ at_power_on }
        ensures reset { is_out (driver_of result) ≡ false }
        ensures none { opened_of (driver_of result) ≡ 0 }
        ensures lawful { IsLawful result }
        ensures traces { (version : ℕ) → Traces version (driver_of result) (log_of result) [] }
    {
        LoggedDriver {
            node,
            driver: AnyDriver::InReset(Driver::new(node)),
            log,
            kept: UnmodelledRegisters::new(),
        }
    }

    /// The activation that was started last, from 1 on; 0 where there was none.
    pub fn activation(&self) -> u64
        ensures { result ≡ opened_of (driver_of self.now) }
    {
        match &self.driver {
            AnyDriver::InReset(driver) => driver.activation(),
            AnyDriver::InActive(driver) => driver.activation(),
        }
    }

    /// The messages of the present activation that were got and not released; none in reset.
    pub fn unread(&self) -> &[Message]
        ensures { result.now ≡ held_of (driver_of self.now) }
    {
        match &self.driver {
            AnyDriver::InReset(_) => &[],
            AnyDriver::InActive(driver) => driver.unread(),
        }
    }

    /// The registers that are kept for it and have no effect on the bus.
    pub fn kept(&self) -> UnmodelledRegisters
        ensures { result ≡ kept_of self.now }
    {
        self.kept
    }

    /// Enters a step that is done: its answer, after how many bits, and what is kept after it.
    #[inline(always)]
    pub fn enter(&mut self, answer: StepAnswer, bits: u64, kept: UnmodelledRegisters)
        requires { length (done_in (log_of self.old)) < done_room (log_of self.old) }
        ensures done { done_in (log_of self.new)
            ≡ done_in (log_of self.old) ++ record { answer = answer; bits = bits } ∷ [] }
        ensures room { done_room (log_of self.new) ≡ done_room (log_of self.old) }
        ensures kept { kept_of self.new ≡ kept }
        ensures rest { self.new ≡ record self.old {
          kept = kept;
          log = record (log_of self.old) { done = (log_of self.new).done };
        } }
    {
        self.log.push(answer, bits);
        self.kept = kept;
    }

    /// What it did so far.
    pub fn log(&self) -> &WorkLog
        ensures { result.now ≡ log_of self.now }
    {
        &self.log
    }

    /// The driver and what it did.
    pub fn finish(self) -> (AnyDriver, WorkLog)
        ensures driver { result.0 ≡ driver_of self }
        ensures log { result.1 ≡ log_of self }
    {
        (self.driver, self.log)
    }
}
