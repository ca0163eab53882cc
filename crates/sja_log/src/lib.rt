//! The log of a run: data, on which the texts of a run stand.
//!
//! A [`RunLog`] has what a run did: how it ended, and of each node its journal, its error counters, the steps that its
//! driver did, and of each activation the messages that were released and those that were left unread.
//! `specs/Log.antt` has the same as values.
//!
//! A [`RunFault`] says why a plan's run has no log, a [`NoLog`] why any run has none, and a [`RegisterRow`] what a
//! register of a node reads as. What is promised of a run stands in `crates/sja_promises`.
#![tactic(auto)]

mod activation_log;
mod end;
mod no_log;
mod node_run;
mod register_row;
mod run_fault;
mod run_log;

pub use activation_log::ActivationLog;
pub use end::End;
pub use no_log::NoLog;
pub use node_run::NodeRun;
pub use register_row::RegisterRow;
pub use run_fault::RunFault;
pub use run_log::RunLog;
