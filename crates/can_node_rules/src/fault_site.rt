//! The piece of a record in which a fault was.

/// In which piece a fault was.
#[derive(Clone, Copy, Debug)]
pub enum FaultSite {
    /// In a frame that the node sends.
    InTransmission,
    /// In a frame of another node.
    InReception,
    /// In an active error flag or an overload flag.
    InFlag,
    /// In the delimiter after a flag.
    InDelimiter,
}
