//! Messages that were released.

use can_frame::Message;

/// A message that a driver released, as its log has it (this project's own rule).
#[derive(Debug, PartialEq, Eq, Drop)]
pub struct Release {
    /// The activation in which it was received, from 1 on.
    pub activation: u64,
    /// The message.
    pub message: Message,
}
