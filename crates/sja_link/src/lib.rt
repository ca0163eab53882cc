//! The links between the bus and the driver of a node, one for each activation of its controller: their two ends, the
//! ledgers of bytes at both, and the pure core of one link.
//!
//! Downward a link carries messages and bus-off ([`Down`]), upward starts, credits, requests and stops ([`Up`]). The
//! ends of all links of a node are the traits [`BusEnd`] and [`DriverEnd`]; [`DequeLinks`] are both in one value. At
//! the bus's end the [`BusLedger`] decides whether a message is stored or overrun, by the bytes that are free. At the
//! driver's end the [`DriverLedger`] shows the messages and releases them. The [`World`] of one link has the events
//! that may happen on it. The journal that says what all this means is the crate `sja_journal`; its types are here too.
//!
//! `DequeLinks::new` and `World::step` alone take memory.
#![tactic(auto)]

mod bad_credit;
mod bus_end;
mod bus_ledger;
mod busy;
mod counts;
mod deque_link;
mod deque_links;
mod driver_end;
mod driver_ledger;
mod event;
mod laws;
mod link_id;
mod lost_window;
mod older_down;
mod release_fault;
mod world;

pub use bad_credit::BadCredit;
pub use bus_end::BusEnd;
pub use bus_ledger::BusLedger;
pub use busy::Busy;
pub use deque_link::DequeLink;
pub use deque_links::DequeLinks;
pub use driver_end::DriverEnd;
pub use driver_ledger::DriverLedger;
pub use event::Event;
pub use laws::{
    every_world_keeps_its_budget, what_was_kept_was_stored, what_was_released_and_left_was_stored,
};
pub use link_id::LinkId;
pub use lost_window::LostWindow;
pub use older_down::OlderDown;
pub use release_fault::ReleaseFault;
pub use sja_journal::{
    ACTIVATIONS, BetweenBits, BoundedHistory, Down, Dropped, Endless, Entries, Entry, Full,
    HISTORY_LIMIT, ITEMS_DOWN, ITEMS_UP, Journal, RECEIVE_FIFO, Recorder, Up, Verdict, WITHOUT_END,
    most_activations,
};
pub use world::World;
