//! Calls of `can_notation`.

use super::hexadecimal::message_of;
use super::row_answers::RowAnswers;
use can_frame::Message;
use can_notation::{read_text, text_of};

/// Does a call of the notation.
///
/// `text 0224601122`, the text of the frame of a message; `read 123#1122`, the message of the frame that a text says.
pub fn of_notation(told: &mut RowAnswers, name: &str, rest: &str) {
    match name {
        "text" => text(told, rest),
        "read" => read(told, rest),
        _ => told.unread(),
    }
}

/// Says the text of the frame of a message.
fn text(told: &mut RowAnswers, rest: &str) {
    let Some(message) = message_of(rest) else {
        return told.unread();
    };
    match str::from_utf8(text_of(&message.frame()).as_slice()) {
        Ok(text) => told.say(text),
        Err(_) => told.say("no text"),
    }
}

/// Says the message of the frame that a text says, or why it says none.
fn read(told: &mut RowAnswers, rest: &str) {
    match read_text(rest.as_bytes()) {
        Ok(frame) => told.message(&Message::of(&frame)),
        Err(fault) => told.name(fault),
    }
}
