//! Whether a long text is a document that is no plan, without the tables that `toml` would build of it.
//!
//! A table of one key takes a kilobyte there, so that a document with many keys takes some hundred times its bytes.
//! Here a key takes the bytes of its parts and a few numbers, and a value nothing.

mod definition;
mod faulty;
mod flat;
mod grammar;
mod judging;
mod look;
mod many;
mod names;
mod node_list;
mod path;
mod reading;
mod refusal;
mod room;
mod state;
mod strange;
mod values;
mod what;

pub use faulty::faulty_line;
pub(crate) use look::Look;
pub(crate) use strange::look_at;
