//! What a read of the controller's registers sees of the receive buffer.
use super::message::Message;

/// What a read of the controller's registers sees of the receive buffer: the messages at the driver's end that weren't
/// released (SJA1000 data sheet, 6.4.14, receive buffer, and 6.4.16, receive message counter).
#[derive(Debug, PartialEq, Eq, Drop)]
pub struct BufferView {
    /// The first of them.
    pub first: Option<Message>,
    /// How many there are.
    pub count: u8,
}
