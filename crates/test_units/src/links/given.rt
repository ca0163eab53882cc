//! The number of a link, messages by their length, and requests.

use can_frame::Message;
use can_node_rules::Request;
use sja_link::LinkId;
use std::test::Fail;

/// The first activation of node 1.
pub const LINK: LinkId = LinkId {
    node: 1,
    activation: 1,
};

/// A message of so many bytes, 3 to 13, with identifier 0 and zeros for data.
pub fn message_of(length: u8) -> Result<Message, Fail> {
    let zeros = [0u8; 13];
    let mut bytes = [0x80 | length.saturating_sub(5); 13];
    bytes[1..].copy_from_slice(&zeros[1..]);
    if length < 5 {
        bytes[0] = length.saturating_sub(3);
    }
    let said = bytes.get(..usize::from(length)).unwrap_or(&zeros);
    Ok(Message::from_bytes(said)?)
}

/// A request for the frame of a message, to be tried again until it is sent.
pub fn request_for(message: &[u8]) -> Result<Request, Fail> {
    Ok(Request {
        frame: Message::from_bytes(message)?.frame(),
        single_shot: false,
        self_receive: false,
    })
}
