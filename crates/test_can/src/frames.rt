//! Calls of frames, of their messages, and of filters.

use super::hexadecimal::{bytes_of, message_of, number};
use super::row_answers::RowAnswers;
use can_frame::{Filter, Frame, FrameFault, Message};

/// Does a call of frames.
///
/// `frame std 123 data 2 1122`, the message of the frame of these values, where the message gives the frame back;
/// `message 0224601122`, the values that the frame of a message shows; `length 0224601122`, its number of bytes, and
/// `byte 0224601122 3`, one of them; `default`, the message that is made without bytes; `single 246f1122 00000000
/// 0224601122`, whether a single filter with this code and this mask passes the frame of a message, and `dual`, whether
/// a dual one does.
pub fn of_frames(told: &mut RowAnswers, name: &str, rest: &str) {
    match name {
        "frame" => frame(told, rest),
        "message" => message(told, rest),
        "length" => length(told, rest),
        "byte" => byte(told, rest),
        "default" => told.message(&Message::default()),
        "single" => passed(told, passes(true, rest)),
        "dual" => passed(told, passes(false, rest)),
        _ => told.unread(),
    }
}

/// Says the message of the frame of these values, or what is wrong with them.
fn frame(told: &mut RowAnswers, rest: &str) {
    match frame_of_values(rest) {
        Some(Ok(frame)) => match message_both_ways(&frame) {
            Some(message) => told.message(&message),
            None => told.say("another"),
        },
        Some(Err(fault)) => told.name(fault),
        None => told.unread(),
    }
}

/// What a frame of these values comes to: its format, its identifier in hexadecimal digits, its kind, its DLC, and its
/// data.
fn frame_of_values(rest: &str) -> Option<Result<Frame, FrameFault>> {
    let mut words = rest.split(' ');
    let ext = words.next()? == "ext";
    let id = u32::from_str_radix(words.next()?, 16).ok()?;
    let rtr = words.next()? == "rtr";
    let dlc = words.next()?.parse::<u8>().ok()?;
    let bytes = bytes_of(words.next().unwrap_or(""))?;
    Some(Frame::new(ext, id, rtr, dlc, bytes.as_slice()))
}

/// The message of a frame, where its bytes are read as this message, and the message gives the frame back.
fn message_both_ways(frame: &Frame) -> Option<Message> {
    let made = Message::of(frame);
    let read = Message::from_bytes(made.bytes()).ok()?;
    if made == read && read.copy().frame() == frame.copy() {
        Some(made)
    } else {
        None
    }
}

/// Says the values that the frame of a message shows, or why the bytes are no message.
fn message(told: &mut RowAnswers, rest: &str) {
    let Some(bytes) = bytes_of(rest) else {
        return told.unread();
    };
    match Message::from_bytes(bytes.as_slice()) {
        Ok(message) => values(told, &message.frame()),
        Err(fault) => told.name(fault),
    }
}

/// Says the values that a frame shows.
fn values(told: &mut RowAnswers, frame: &Frame) {
    told.say(if frame.ext() { "ext" } else { "std" });
    told.show_id(frame.id());
    told.say(if frame.rtr() { "rtr" } else { "data" });
    told.show(frame.dlc());
    if !frame.bytes().is_empty() {
        told.say("");
        told.join_bytes(frame.bytes());
    }
}

/// Says how many bytes a message has.
fn length(told: &mut RowAnswers, rest: &str) {
    match message_of(rest) {
        Some(message) => told.show(message.len()),
        None => told.unread(),
    }
}

/// Says a byte of a message.
fn byte(told: &mut RowAnswers, rest: &str) {
    match byte_at(rest) {
        Some(Some(byte)) => {
            told.say("");
            told.join_bytes(&[byte]);
        }
        Some(None) => told.say("none"),
        None => told.unread(),
    }
}

/// The byte of a message at a place.
fn byte_at(rest: &str) -> Option<Option<u8>> {
    let (message, place) = rest.split_once(' ')?;
    Some(message_of(message)?.byte(number(place)? as usize))
}

/// Whether a filter with this code and this mask passes the frame of a message.
fn passes(single: bool, rest: &str) -> Option<bool> {
    let (filter, message) = rest.rsplit_once(' ')?;
    let filter = filter_of(single, filter)?;
    Some(filter.copy().passes(&message_of(message)?.frame()))
}

/// The filter with this code and this mask.
fn filter_of(single: bool, rest: &str) -> Option<Filter> {
    let (code, mask) = rest.split_once(' ')?;
    Some(Filter {
        single,
        acr: four_of(code)?,
        amr: four_of(mask)?,
    })
}

/// The four bytes that a word writes.
fn four_of(word: &str) -> Option<[u8; 4]> {
    match bytes_of(word)?.as_slice() {
        [first, second, third, fourth] => Some([*first, *second, *third, *fourth]),
        _ => None,
    }
}

/// Says whether a filter passes a frame.
fn passed(told: &mut RowAnswers, passes: Option<bool>) {
    match passes {
        Some(so) => told.said(so),
        None => told.unread(),
    }
}
