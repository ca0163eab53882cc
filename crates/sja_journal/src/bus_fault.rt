//! What ends the bits of a bus.

/// Why the bus doesn't go on (this project's own rule). After each of them but the first it answers the same always.
#[derive(Clone, Copy, Debug, PartialEq, Eq)]
pub enum BusFault {
    /// All bits of the run were spent. Nothing changed.
    BitsSpent,
    /// This node's driver gave a credit of so many bytes that can't be right.
    BadCredit(u8, u8),
    /// The link of this node gave an item back again and again.
    Stuck(u8),
    /// This node's driver gave an item that may not come there: a start inside an activation, a request or a stop
    /// before its start, a request while one is held, or a second request after bus-off.
    BadOrder(u8),
    /// The reserved entries of this node's journal are used.
    JournalFull(u8),
}
