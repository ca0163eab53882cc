//! What was left on a link.

use sja_journal::Down;

/// An item that was left downward on the link of an activation that has ended (this project's own rule).
#[derive(Debug, PartialEq, Eq, Drop)]
pub struct OlderDown {
    /// The activation, counted from 1.
    pub activation: u64,
    /// The item.
    pub item: Down,
}
