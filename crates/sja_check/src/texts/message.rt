//! Words that are to be the message of a `load`.

use super::super::page::{Page, Piece};
use super::layout::layout_words;
use can_frame::Message;
use can_notation::{NotationFault, read_text};
use hex::FromHexError;

/// Says why a word, in digits or in can-utils' notation, isn't a message, where that notation is one (`noted`) or not;
/// false where it is.
pub(crate) fn message_words(page: &mut Page, word: &str, noted: bool) -> bool {
    if word.contains('#') {
        return notation_words(page, word, noted);
    }
    let bytes = match hex::decode(page.alloc, word) {
        Ok(bytes) => bytes,
        Err(FromHexError::OutOfMemory) => return page.refuse(),
        Err(_) => return false,
    };
    match Message::from_bytes(bytes.as_slice()) {
        Ok(_) => false,
        Err(fault) => layout_words(page, bytes.as_slice(), fault),
    }
}

/// Says the message of a frame in can-utils' notation, where that is none (`noted`), or else what is wrong with it.
fn notation_words(page: &mut Page, word: &str, noted: bool) -> bool {
    let template = match read_text(word.as_bytes()) {
        Ok(_) if noted => "",
        Err(NotationFault::Identifier) if noted =>
            "before # stand 3 hexadecimal digits, or 8 of an extended identifier: \"load 123#1122\"",
        Err(_) if noted => "behind # stand at most 8 bytes, or R and their number: \"load 123#R2\"",
        Ok(frame) => {
            return page.say(
                "a message stands as the bytes of the buffer: <load {0}>",
                &[Piece::Bytes(Message::of(&frame).bytes())],
            );
        }
        Err(NotationFault::Identifier) =>
            "before # stand 3 digits, or 8 of an extended identifier; \"load\" takes the buffer's bytes",
        Err(_) =>
            "behind # stand at most 8 bytes, or R; and \"load\" takes the bytes of the buffer",
    };
    page.say(template, &[])
}
