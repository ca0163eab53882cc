//! What is promised of a run whose drivers stand in threads of their own.
//!
//! `specs/Threads.antt` says what the log of such a run keeps, `IsThreadedRun`, and `specs/Stopping.antt` why a run has
//! no log. `Follows` of `specs/Accessing.antt` says which steps a driver did, and by which acts. At each port some
//! order of what the bus told it and of the driver's acts there leads to what each act found: `LedBy` of
//! `specs/Ordering.antt`. The run itself is `run_threads` of `crates/sja_threads`.
//!
//! A [`Pass`] is what a gate answers, a [`PortUpdate`] what the bus tells a port, a [`PortAct`] an act at a port.
#![tactic(auto)]

mod pass;
mod port_act;
mod port_update;

pub use pass::Pass;
pub use port_act::PortAct;
pub use port_update::PortUpdate;
