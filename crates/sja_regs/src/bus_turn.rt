//! What one bit tells the registers.

use can_node_rules::{BitEvents, Phase};

/// What the bus tells a port after one bit.
#[derive(Debug, PartialEq, Eq, Drop)]
pub struct BusTurn {
    /// The activation of the controller, counted from 1.
    pub activation: u64,
    /// What the bit brought to the node.
    pub events: BitEvents,
    /// The transmit error counter after the bit, as TXERR shows it.
    pub txerr: u8,
    /// The receive error counter after the bit, as RXERR shows it.
    pub rxerr: u8,
    /// The node is bus-off after the bit, as BS shows it: its recovery isn't over.
    pub off: bool,
    /// Where the node is with its next bit.
    pub phase: Phase,
    /// A standing abort dropped the request at the beginning of the bit.
    pub aborted: bool,
    /// The frame received in the bit found no room in the receive buffer.
    pub overrun: bool,
}
