//! [`MessageFates`]: what became of the messages of an activation.

use can_frame::Message;
use std::alloc::Global;

/// The messages of an activation: those that the driver released, those that it left unread, and those that found no
/// room.
#[derive(Drop)]
pub struct MessageFates {
    pub released: Vec<Message>,
    pub unread: Vec<Message>,
    pub overrun: Vec<Message>,
}

impl MessageFates {
    /// No messages.
    pub fn new(alloc: Global) -> MessageFates {
        MessageFates {
            released: Vec::new(alloc),
            unread: Vec::new(alloc),
            overrun: Vec::new(alloc),
        }
    }
}
