//! What an abort did with the request that is held.

/// What an abort did (SJA1000 data sheet, 6.4.4, command register).
#[derive(Clone, Copy, Debug, PartialEq, Eq)]
pub enum AbortOutcome {
    /// No request is held, or it would be dropped at its next failure anyway.
    Unchanged,
    /// The request is in progress; it is dropped where it fails or loses arbitration.
    Marked,
    /// The request is dropped.
    Dropped,
}
