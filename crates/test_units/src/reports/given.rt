//! Parts of logs: messages, entries of journals, activations.

use can_frame::Message;
use can_levels::Level;
use sja_journal::{Entry, Recorder, Up};
use sja_log::ActivationLog;
use std::alloc::Global;
use std::test::Fail;
use test_frames::nodes::PLAIN;

/// The message of the standard data frame with this identifier, below 8, and no data.
pub fn message(identifier: u8) -> Result<Message, Fail> {
    Ok(Message::from_bytes(&[0, 0, identifier << 5])?)
}

/// A start whose filter passes all.
pub fn start() -> Entry {
    Entry::Up(Up::Start(PLAIN))
}

/// So many recessive bits, and then this entry.
pub fn enter(journal: &mut Recorder, bits: u32, entry: Entry) {
    for _ in 0..bits {
        let _ = journal.enter_bit(Level::Recessive, Level::Recessive);
    }
    let _ = journal.enter(entry);
}

/// A list of this.
pub fn one<T: Drop>(alloc: Global, first: T) -> Result<Vec<T>, Fail> {
    let mut list = Vec::new(alloc);
    list.push(first)?;
    Ok(list)
}

/// Several of this message.
pub fn several(alloc: Global, message: &Message, count: usize) -> Result<Vec<Message>, Fail> {
    let mut messages = Vec::new(alloc);
    for _ in 0..count {
        messages.push(message.copy())?;
    }
    Ok(messages)
}

/// An activation of which these messages were released and these left unread on the link.
pub fn activation(released: Vec<Message>, unread: Vec<Message>) -> ActivationLog {
    ActivationLog::of(released, unread)
}

/// An activation in which nothing came.
pub fn quiet(alloc: Global) -> ActivationLog {
    activation(Vec::new(alloc), Vec::new(alloc))
}
