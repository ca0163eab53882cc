//! What a port isn't told yet.

/// What happened to a node since its port was told last.
#[derive(Clone, Copy, Debug, PartialEq, Eq)]
pub(crate) enum PendingEvent {
    /// Nothing.
    Nothing,
    /// An item was taken, or an abort marked the request.
    Changed,
    /// An abort dropped the request.
    Dropped,
}
