//! The driver of a node: its two states with their calls, and the steps of a script, each logged.
//!
//! A [`Driver`] is in reset ([`Reset`]) or active ([`Active`]); a start leads from the one to the other, a stop back,
//! and each hands its state back where it is refused. Each call works on the driver's end of its node's links
//! ([`DriverEnd`](sja_link::DriverEnd), any type that keeps to it), at that of its activation, and on the registers of
//! its controller ([`Port`](sja_regs::Port)), as far as it needs them: window and release see no port. Before an active
//! driver reads, looks or releases it takes in all that its link shows.
//!
//! A [`LoggedDriver`] is a driver in either state ([`AnyDriver`]) with the log of what it released and left
//! ([`WorkLog`]). It tries the steps of a script ([`Step`](sja_steps::Step)) at the right one of a node's links. What
//! a try does is one record, `Steps` of `specs/LoggedDrivers.antt`: what was got, given and released, the answer by
//! state, window and registers, the registers after it, why it is to be tried again, and how log and links go on with
//! all steps before it. When it may be made is the record `MayStep`, of a window or a release by a call without a port
//! `MayRelease`, and what is in order after it, whatever the step, `StaysLawful`.
//! [`LoggedDriver::seen`] looks at what has come, which is no step: `specs/Observing.antt` says what it takes in.
//!
//! A driver of version 3 knows addresses and bytes alone, as one for the real chip does: it reads each of the 256
//! addresses and takes each byte there, in either mode, and nothing is refused. A read is the step `Read`, and
//! [`UnmodelledRegisters::read_by`] what it answers: `value_by_bytes` of `specs/Reads.antt`. A write is those steps
//! that [`steps_of_write`] lists, in order: `write_steps` of `specs/Writes.antt`. [`Written`] is one on its way, which
//! answers in the end why the controller ignored it, if it did: `ignored_by` of `specs/Ignoring.antt`.
//! [`UnmodelledRegisters`] are the registers that have no effect on the bus, and [`address`] has where they stand.
//! `docs/model/REGISTERS.md` has the map of all registers.
//!
//! `WorkLog::new` alone takes memory.
#![tactic(auto)]

mod active;
mod active_port;
mod active_steps;
pub mod address;
mod answers;
mod any_driver;
mod attempt;
mod changing;
mod command_bits;
mod command_fault;
mod command_steps;
mod driver;
mod in_reset;
mod laws;
mod logged_driver;
mod logged_step;
mod mode_write;
mod observing;
mod reading;
mod register_steps;
mod release;
mod reset;
mod start_fault;
mod unmodelled_registers;
mod versions;
mod work_log;
mod write_steps;
mod written;

pub use active::Active;
pub use any_driver::AnyDriver;
pub use command_fault::CommandFault;
pub use command_steps::{WrittenCommand, written_command};
pub use driver::Driver;
pub use in_reset::is_reset;
pub use laws::no_command_is_refused;
pub use logged_driver::LoggedDriver;
pub use release::Release;
pub use reset::Reset;
pub use start_fault::StartFault;
pub use unmodelled_registers::UnmodelledRegisters;
pub use versions::{by_bytes, most_acts};
pub use work_log::WorkLog;
pub use write_steps::{WriteSteps, is_start, is_stop, is_typed_write, steps_of_write};
pub use written::Written;
