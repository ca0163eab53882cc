//! The shared bus: what each controller takes from its driver, drives, sees and receives, bit by bit.
//!
//! A [`Bus`] has one to eight nodes, each with the journal of all that happened to it. In each bit it takes what the
//! drivers gave on the links, applies the aborts that stand, has all nodes drive and see one level, judges the frames
//! that were received, and tells the ports ([`Board`]). A [`FaultScript`] says where a node sees the other level.
//! Contracts see a bus as its journals: each journal's record has one cut, by which its verdicts are right, and each
//! level that was seen is the one that all nodes drove together, or the other one where the script strikes.
//!
//! `Bus::new`, `Bus::strike`, `serial_links` and `SerialBoard::new` alone take memory.
#![tactic(auto)]

mod aborts;
mod activity;
mod all_nodes;
mod bit_end;
mod bit_outcome;
mod bits;
mod board;
mod board_laws;
mod broken_bit;
mod bus;
mod bus_node;
mod bus_off;
mod coming;
mod idle_bits;
mod items;
mod later_strikes;
mod looking;
mod node_bit;
mod node_links;
mod node_log;
mod pending_event;
mod placing;
mod ports;
mod row_frame;
mod serial_board;
mod stray;
mod striking;
mod struck_bits;
mod struck_nodes;
mod struck_table;
mod together;
mod until_told;
mod verdict;
mod wire;

pub use board::Board;
pub use board_laws::{
    a_port_kept_that_shows_the_turn_was_told_it, a_port_shows_a_turn_that_says_the_same,
};
pub use bus::Bus;
pub use node_links::{are_links_of, serial_links};
pub use serial_board::SerialBoard;
pub use sja_bus_rules::NodeLog;
pub use sja_journal::BusFault;
