//! Why nothing was released.

/// Why nothing was released. The first that holds counts.
#[derive(Clone, Copy, Debug, PartialEq, Eq)]
pub enum ReleaseFault {
    /// The node went bus-off.
    Stopped,
    /// No message is there that wasn't released.
    Empty,
    /// The end gave the credit back.
    Busy,
}
