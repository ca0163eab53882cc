//! How many nodes a bus has.

/// How many nodes a bus has at most, counted from 0 (this project's own rule).
pub const MOST_NODES: u8 = 8;
