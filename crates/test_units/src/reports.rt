//! Reports of logs that are written by hand.

mod given;
mod parts;
mod refused_memory;
