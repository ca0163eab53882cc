//! Bytes, messages and numbers of words.

use arrayvec::ArrayVec;
use can_frame::{Frame, Message};

/// The bytes that a word writes with two hexadecimal digits each, at most 16.
pub fn bytes_of(word: &str) -> Option<ArrayVec<u8, 16>> {
    let mut bytes = ArrayVec::new();
    let mut high = None;
    for letter in word.as_bytes() {
        let digit = digit_of(*letter)?;
        match high {
            None => high = Some(digit),
            Some(first) => {
                bytes.try_push((first << 4) | digit).ok()?;
                high = None;
            }
        }
    }
    if high.is_none() { Some(bytes) } else { None }
}

/// The number that a hexadecimal digit stands for.
fn digit_of(letter: u8) -> Option<u8> {
    match letter {
        b'0'..=b'9' => Some(letter.wrapping_sub(b'0')),
        b'a'..=b'f' => Some(letter.wrapping_sub(b'a').wrapping_add(10)),
        _ => None,
    }
}

/// The message that a word writes.
pub fn message_of(word: &str) -> Option<Message> {
    Message::from_bytes(bytes_of(word)?.as_slice()).ok()
}

/// The frame of the message that a word writes.
pub fn frame_of(word: &str) -> Option<Frame> {
    Some(message_of(word)?.frame())
}

/// The number that a word writes in decimal digits.
pub fn number(word: &str) -> Option<u32> {
    word.parse::<u32>().ok()
}
