//! What became of a frame that was received.

/// What became of a frame that a node received (SJA1000 data sheet, 6.4.14, receive buffer, and 6.4.15, acceptance
/// filter).
#[derive(Clone, Copy, Debug, PartialEq, Eq)]
pub enum Reception {
    /// Its message was put for the driver.
    Stored,
    /// Its message was longer than the bytes that were free, and is lost.
    Overrun {
        /// The bytes of the message, 3 to 13.
        length: u8,
        /// The bytes that were free, 0 to 64.
        free: u8,
    },
    /// There is no verdict on it: the acceptance filter stopped it.
    Stopped,
}
