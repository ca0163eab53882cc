//! What a bus is, by the journals of its nodes: the definitions that a bus, the log of a run and a waveform share.
//!
//! `specs/Wire.antt` has the level of the bus and what each node sees, `Telling.antt` what a port is told of a bit,
//! and `Lawful.antt` what holds of the journals of every bus. A [`NodeLog`] is what a bus leaves of a node. The bus
//! itself is `crates/sja_bus`.
#![tactic(auto)]

mod node_log;

pub use node_log::NodeLog;
