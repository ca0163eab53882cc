//! The rules of a CAN node, as data and definitions, without the machine that keeps to them.
//!
//! The record of a node is a list of starts, stops, requests, aborts and bits, each bit with the level driven and the
//! level seen. A lawful cut of the record into pieces says what the record means: the frames that were received and
//! sent, the faults, and the error counters. The laws say that a record has one cut. `Node` of `can_node` stands at
//! records that have such a cut.
#![tactic(auto)]

mod abort_outcome;
mod bit_events;
mod cause;
mod config;
mod contention_laws;
mod counters;
mod error_capture;
mod fault_site;
mod flag_kind;
mod laws;
mod node_place;
mod outcome;
mod own_bit;
mod phase;
mod request;
mod role;
mod state;

pub use abort_outcome::AbortOutcome;
pub use bit_events::BitEvents;
pub use cause::Cause;
pub use config::Config;
pub use contention_laws::{contention_has_one_answer, some_frame_goes_on};
pub use counters::{BUS_OFF, Counters, ERROR_PASSIVE};
pub use error_capture::error_code;
pub use fault_site::FaultSite;
pub use flag_kind::FlagKind;
pub use laws::{
    a_bit_is_driven_as_the_cut_says, a_frame_of_another_node_is_received, a_front_has_a_cut,
    a_record_has_one_cut, each_eleven_takes_one, pieces_are_told_apart,
};
pub use node_place::NodePlace;
pub use outcome::Outcome;
pub use own_bit::OwnBit;
pub use phase::Phase;
pub use request::Request;
pub use role::Role;
pub use state::State;
