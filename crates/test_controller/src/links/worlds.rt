//! The world of one link: where its events are allowed.

use super::words::{message_of, request};
use sja_link::{Event, World};
use std::alloc::{AllocError, Global};
use test_frames::nodes::PLAIN;

/// Whether each of these events is allowed where it stands: `start`, `send`, the request for the frame of zeros,
/// `sent`, `stop`, `take`, `13`, the message of that length is put, `off`, `get` and `release`.
pub fn allowed(alloc: Global, events: &str) -> Result<String, AllocError> {
    let mut text = String::new(alloc);
    let mut world = World::new(alloc);
    for word in events.split(' ') {
        let Some(event) = event_of(word) else {
            text.push_str(" ?")?;
            continue;
        };
        match world.step(event) {
            Ok(true) => text.push_str(" yes")?,
            Ok(false) => text.push_str(" no")?,
            Err(_) => return Err(AllocError),
        }
    }
    Ok(text)
}

/// The event of a word.
fn event_of(word: &str) -> Option<Event> {
    match word {
        "start" => Some(Event::Start(PLAIN)),
        "send" => Some(Event::Send(request())),
        "sent" => Some(Event::SendDone),
        "stop" => Some(Event::Stop),
        "take" => Some(Event::Take),
        "off" => Some(Event::Off),
        "get" => Some(Event::Get),
        "release" => Some(Event::Release),
        _ => Some(Event::Put(message_of(word.parse::<u8>().ok()?)?)),
    }
}
