//! The journal of a node: its bits, the items that the bus took from the driver, and the verdicts on messages.
//!
//! [`Up`] and [`Down`] are the items of a link. An [`Entry`] is a bit, an item, an abort, a verdict or bus-off. A
//! [`Recorder`] writes a journal, into lists that may forget their oldest items ([`BoundedHistory`]), while contracts
//! go on to see all items. [`Journal`] is read. `specs` says what a journal means: the part of each activation, the
//! record of the node, the free bytes, and the verdicts. [`ITEMS_DOWN`], [`ITEMS_UP`] and [`RECEIVE_FIFO`] are sizes,
//! [`most_activations`] says how many activations a version has.
//!
//! `Recorder::new` and `BoundedHistory::new` alone take memory.
#![tactic(auto)]

mod between_bits;
mod bounded_history;
mod bus_fault;
mod code;
mod down;
mod dropped;
mod endless;
mod entries;
mod entry;
mod full;
mod history_bits;
mod journal;
mod recorder;
mod rest_bits;
mod sizes;
mod up;
mod verdict;

pub use between_bits::BetweenBits;
pub use bounded_history::{BoundedHistory, HISTORY_LIMIT};
pub use bus_fault::BusFault;
pub use down::Down;
pub use dropped::Dropped;
pub use endless::Endless;
pub use entries::Entries;
pub use entry::Entry;
pub use full::Full;
pub use journal::Journal;
pub use recorder::Recorder;
pub use sizes::{ACTIVATIONS, ITEMS_DOWN, ITEMS_UP, RECEIVE_FIFO, WITHOUT_END, most_activations};
pub use up::Up;
pub use verdict::Verdict;
