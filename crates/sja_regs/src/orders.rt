//! What the registers want of the bus in the next bit.

/// What a driver wants of the bus.
#[derive(Clone, Copy, Debug, PartialEq, Eq)]
pub struct Orders {
    /// The request is to be aborted. It stands until the transmit buffer is released.
    pub abort: bool,
    /// The driver has ended.
    pub ended: bool,
}
