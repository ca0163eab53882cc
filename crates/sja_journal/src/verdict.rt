//! What came of a received frame.

/// What came of a received frame that passed the filter (SJA1000 data sheet, 6.4.14, receive buffer).
#[derive(Clone, Copy, Debug, PartialEq, Eq)]
pub enum Verdict {
    /// Its message was put for the driver.
    Stored,
    /// Its message was longer than the bytes that were free, and is lost.
    Overrun,
}
