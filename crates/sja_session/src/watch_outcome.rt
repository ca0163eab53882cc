//! What comes of bits until an interrupt line rises.

/// What comes of bits that were run until an interrupt line rises (this project's own rule).
#[derive(Clone, Copy, Debug, PartialEq, Eq)]
pub struct WatchOutcome {
    /// How many bits were run.
    pub bits: u32,
    /// The first of the watched nodes whose line rose in the last of these bits; none, where no line did.
    pub rose: Option<u8>,
}
