//! Items and messages in words.

use can_frame::Message;
use can_node_rules::Request;
use sja_journal::{Down, Up};
use std::alloc::{AllocError, Global};
use test_frames::nodes::PLAIN;
use test_words::Bytes;

/// The message of so many bytes, 3 to 13, with identifier 0 and zeros for data.
pub fn message_of(length: u8) -> Option<Message> {
    let zeros = [0u8; 13];
    let mut bytes = [0x80 | length.saturating_sub(5); 13];
    bytes[1..].copy_from_slice(&zeros[1..]);
    if length < 5 {
        bytes[0] = length.saturating_sub(3);
    }
    let said = bytes.get(..usize::from(length))?;
    Message::from_bytes(said).ok()
}

/// The request for the frame of zeros, to be tried again until it is sent.
pub fn request() -> Request {
    Request {
        frame: Message::default().frame(),
        single_shot: false,
        self_receive: false,
    }
}

/// An item downward: `off`, or a message by its length.
pub fn down_of(word: &str) -> Option<Down> {
    match word {
        "off" => Some(Down::Off),
        _ => Some(Down::Message(message_of(word.parse::<u8>().ok()?)?)),
    }
}

/// An item upward: `start`, `send`, the request for the frame of zeros, `stop`, or a credit by its bytes.
pub fn up_of(word: &str) -> Option<Up> {
    match word {
        "start" => Some(Up::Start(PLAIN)),
        "send" => Some(Up::Send(request())),
        "stop" => Some(Up::Stop),
        _ => Some(Up::Credit(word.parse::<u8>().ok()?)),
    }
}

/// Writes a message: its length where it is that of zeros, else its bytes.
pub fn push_message(alloc: Global, text: &mut String, message: &Message) -> Result<(), AllocError> {
    let length = message.len();
    let zeros = message_of(length as u8);
    let said = if zeros.as_ref() == Some(message) {
        format!(in alloc; " {length}")?
    } else {
        format!(in alloc; " {}", Bytes(message))?
    };
    text.push_str(said.as_str())
}

/// Writes an item downward.
pub fn push_down(alloc: Global, text: &mut String, item: &Down) -> Result<(), AllocError> {
    match item {
        Down::Message(message) => push_message(alloc, text, message),
        Down::Off => text.push_str(" off"),
    }
}

/// Writes an item upward; a start or a request that no word gives is another one.
pub fn push_up(alloc: Global, text: &mut String, item: &Up) -> Result<(), AllocError> {
    match item {
        Up::Start(config) if *config == PLAIN => text.push_str(" start"),
        Up::Send(asked) if *asked == request() => text.push_str(" send"),
        Up::Start(_) | Up::Send(_) => text.push_str(" another"),
        Up::Stop => text.push_str(" stop"),
        Up::Credit(bytes) => {
            let said = format!(in alloc; " credit {bytes}")?;
            text.push_str(said.as_str())
        }
    }
}
