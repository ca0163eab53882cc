//! One CAN node bit by bit: what it drives, and what it makes of the levels that it sees.
//!
//! A [`Node`] keeps no record of its bits, but it stands at records that the rules of the crate `can_node_rules` cut
//! into pieces; the types of these rules are here too. [`contend`] says which of several frames go on if their
//! transmitters start together, and where the others lose arbitration. It alone takes memory.
//!
//! Its tests stand in `crates/test_can/src/node` and `contention`.
#![tactic(auto)]

mod after_bit;
mod arbitration;
mod arbitration_field;
mod bit;
mod bus_integration;
mod bus_off;
mod contention;
mod context;
mod delimiter;
mod drive;
mod ending;
mod events;
mod fault_confinement;
mod flag;
mod interframe_space;
mod next_field;
mod next_place;
mod node;
mod overload_condition;
mod placing;
mod quiet;
mod receive;
mod stage;
mod together;
mod transmit;

pub use can_node_rules::{
    AbortOutcome, BUS_OFF, BitEvents, Cause, Config, Counters, ERROR_PASSIVE, FlagKind, NodePlace,
    Outcome, Phase, Request, State, a_bit_is_driven_as_the_cut_says,
    a_frame_of_another_node_is_received, a_front_has_a_cut, a_record_has_one_cut,
    contention_has_one_answer, each_eleven_takes_one, pieces_are_told_apart, some_frame_goes_on,
};
pub use contention::contend;
pub use node::Node;
