//! The links of a node, each as two one-way rings: one down, from the bus to the driver, and one up. The two ends may
//! be in two threads.
//!
//! [`node_pair`] makes the two ends of a node's links. A [`NodeBus`] is a [`BusEnd`](sja_link::BusEnd) and a
//! [`NodeDriver`] a [`DriverEnd`](sja_link::DriverEnd), and each promises what its trait says. Each has its end of the
//! link of each activation, a [`RingBus`] or [`RingDriver`]; [`ring_pair`] makes both of one. After the last act of
//! both ([`end_bus`], [`end_driver`]) [`settle`] tells what was left on the link: what was got and then this is what
//! was put, and the same upward.
//!
//! `node_pair` and `ring_pair` alone take memory, and no call waits.
#![tactic(auto)]

mod ended_bus;
mod ended_driver;
mod last_acts;
mod laws;
mod left_on_link;
mod missing_note;
mod node_bus;
mod node_driver;
mod node_links;
mod pair;
mod places;
mod remainder;
mod ring_bus;
mod ring_driver;

pub use ended_bus::EndedBus;
pub use ended_driver::EndedDriver;
pub use last_acts::{end_bus, end_driver};
pub use laws::{ends_of_one_pair_can_be_settled, the_first_items_never_come_back};
pub use left_on_link::settle;
pub use missing_note::MissingNote;
pub use node_bus::NodeBus;
pub use node_driver::NodeDriver;
pub use node_links::node_pair;
pub use pair::ring_pair;
pub use remainder::Remainder;
pub use ring_bus::RingBus;
pub use ring_driver::RingDriver;
