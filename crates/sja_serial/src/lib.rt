//! Whole runs in one thread: drivers and bus take turns as a plan says.
//!
//! [`run_serial`] runs a plan and gives the log of the run, with all that is promised of it, and [`run_registers`] what
//! the registers of each node read as at its end.
//!
//! A [`SerialRun`] has the bus, and of each node its port, its links and its driver with the log of what it did.
//! [`SerialRun::new`] makes it, or [`SerialRun::without_end`]; it takes a step of a node ([`SerialRun::step`]), and
//! turns of the bus ([`SerialRun::bus_turn`], [`SerialRun::rest_turn`]), or bits up to the first that a port is told of
//! ([`SerialRun::bits_until_told`]), and ends with its log ([`SerialRun::finish`]). A bit that hasn't run can be struck
//! too ([`SerialRun::strike`]). After each step of a driver the bus takes what was given, so between two steps nothing
//! waits on a link: each item is taken after just the bits before its step, and no link is ever full upward.
//!
//! Contracts say for what a run was made and at which acts of the drivers it stands, `StandsAt` of
//! `specs/Serial.antt`: of each node its driver did these acts; its links carried what its journal and its acts say;
//! its port is as its writes and loads have set it; and all was in time, as `IsInTime` of sja_log has it.
//!
//! A run of the size of a plan keeps all that happens in it ([`a_run_of_the_size_of_a_plan_keeps_all`]), so it has a
//! log. `SerialRun::new`, `SerialRun::without_end`, `SerialRun::strike`, `SerialRun::finish` and the two that run plans
//! alone take memory.
#![tactic(auto)]

mod accessing;
mod bus_turns;
mod drivers;
mod finish;
mod irq_turn;
mod laws;
mod left_on_links;
mod looking;
mod node_turns;
mod place_names;
mod placing;
mod registers;
mod run;
mod serial_run;
mod stepping;
mod striking;
mod until_told;
mod writing;

pub use laws::a_run_of_the_size_of_a_plan_keeps_all;
pub use registers::run_registers;
pub use run::run_serial;
pub use serial_run::SerialRun;
