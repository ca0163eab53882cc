//! Runs with each driver in a thread of its own, and what they are made of.
//!
//! [`run_threads`] runs a plan: each driver in a thread of its own, the bus in the caller's, and gives the log of the
//! run, with all that is promised of it. [`work`] is the driver's part: one step after the other, each tried until it
//! is done. Before each try it asks a [`Gate`], which lets the step go, holds it, or quits the script. It hands back
//! its end of the node's links and the driver with its log ([`Handover`]). A [`TurnBoard`] is the board of a bus whose
//! drivers stand in threads.
//!
//! A step of a plan is one act; in version 3 a write is up to three, and a wait for a bit none. Contracts say which
//! steps were done, and by which acts, `HasWorked` of `specs/Working.antt`: for every journal, so whatever the bus
//! does meanwhile. What is promised of a whole run, and of the steps of a driver in it, is defined in
//! `crates/sja_thread_promises`. No clause says that a wait ends.
//!
//! The run alone takes memory, none of it for a bit.
#![tactic(auto)]

mod acts_of_node;
mod at_gate;
mod bus_thread;
mod comparing;
mod driver_thread;
mod drivers_and_ends;
mod gate;
mod halves;
mod handover;
mod joined_run;
mod kept_half;
mod known_half;
mod last_awaited;
mod laws;
mod left_on_links;
mod lobby;
mod locked_port;
mod never;
mod order;
mod ordered_ports;
mod port_lists;
mod round;
mod run;
mod run_end;
mod run_parts;
mod thread_promise;
mod thread_start;
mod thread_steps;
mod turn_board;
mod turns_of_node;
mod waits;

pub use acts_of_node::ActsOfNode;
pub use driver_thread::work;
pub use gate::Gate;
pub use handover::Handover;
pub use laws::{
    a_bus_stops_on_one_of_64_links, a_driver_in_reset_finds_reset_mode,
    a_step_is_one_act_before_version_3, an_abort_was_commanded,
};
pub use locked_port::LockedPort;
pub use order::Order;
pub use ordered_ports::port_of_node;
pub use port_lists::PortLists;
pub use run::run_threads;
pub use sja_thread_promises::{Pass, PortUpdate};
pub use turn_board::TurnBoard;
pub use turns_of_node::TurnsOfNode;
