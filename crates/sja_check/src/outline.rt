//! The outline of a plan's document: in which line each key, node and text stands.
//!
//! It is a reading of TOML of its own, which knows strings, arrays, inline tables, headers and comments, and no more.
//! It is asked only of documents that `toml` reads; what it doesn't find has no line.

mod abridged;
mod entry;
mod finding;
mod front;
mod gap;
mod key_reader;
mod line;
mod outline_of;
mod pieces;
mod spot;
mod token;

pub(crate) use abridged::Abridged;
pub(crate) use front::Front;
pub(crate) use gap::Gap;
pub(crate) use key_reader::{first_unknown, nodes_in};
pub(crate) use line::{column_at, line_at};
pub(crate) use outline_of::Outline;
pub(crate) use spot::Spot;
pub(crate) use token::Token;
