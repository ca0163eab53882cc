//! What a bus leaves of a node.

use sja_journal::Journal;

/// What a bus leaves of one node at the end of a run (this project's own rule).
#[derive(Debug, Drop)]
pub struct NodeLog {
    /// All that happened to the node.
    pub journal: Journal,
    /// The transmit error counter, as TXERR shows it.
    pub txerr: u8,
    /// The receive error counter, as RXERR shows it.
    pub rxerr: u8,
}
