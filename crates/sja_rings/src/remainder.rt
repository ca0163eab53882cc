//! What was left on a link.

use arrayvec::ArrayVec;
use sja_journal::{Down, ITEMS_DOWN, ITEMS_UP, Up};

/// What was left on a link when both ends had done their last act, oldest first (this project's own rule).
#[derive(Debug, PartialEq, Eq, Drop)]
pub struct Remainder {
    /// What was put and not got: 22 items at most.
    pub down: ArrayVec<Down, ITEMS_DOWN>,
    /// What was given and not taken: 24 items at most.
    pub up: ArrayVec<Up, ITEMS_UP>,
}
