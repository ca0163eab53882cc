//! What the ledgers at the ends of a link answer, in words.

use super::link::Link;
use super::words::{push_message, push_up};
use can_frame::Message;
use sja_journal::Up;
use sja_link::{BadCredit, Busy, LostWindow, ReleaseFault};
use std::alloc::{AllocError, Global};
use std::fmt;

/// What a ledger answers.
pub fn of_ledger<L: Link>(
    alloc: Global,
    text: &mut String,
    link: &mut L,
    name: &str,
) -> Result<(), AllocError> {
    match name {
        "collect" => push_collected(alloc, text, link.collect()),
        "off" => text.push_str(off_of(link.off())),
        "free" => push_said(alloc, text, link.free()),
        "look" => push_looked(alloc, text, link.look()),
        "window" => push_window(alloc, text, link.window()),
        "release" => push_released(alloc, text, link.release()),
        "unread" => push_unread(alloc, text, link),
        "seen" => push_seen(alloc, text, link),
        _ => text.push_str(" ?"),
    }
}

/// Writes what was collected.
fn push_collected(
    alloc: Global,
    text: &mut String,
    collected: Option<Result<Option<Up>, BadCredit>>,
) -> Result<(), AllocError> {
    match collected {
        Some(Ok(item)) => push_taken(alloc, text, item),
        Some(Err(BadCredit(bytes))) => {
            text.push_str(" bad")?;
            push_said(alloc, text, bytes)
        }
        None => text.push_str(" ?"),
    }
}

/// The word for whether bus-off is put.
fn off_of(put: Option<Result<(), Busy>>) -> &'static str {
    match put {
        Some(Ok(())) => " ok",
        Some(Err(Busy)) => " busy",
        None => " ?",
    }
}

/// Writes whether the window is there.
fn push_looked(
    alloc: Global,
    text: &mut String,
    looked: Option<Result<(), LostWindow>>,
) -> Result<(), AllocError> {
    match looked {
        Some(Ok(())) => text.push_str(" ok"),
        Some(Err(stopped)) => push_said(alloc, text, stopped),
        None => text.push_str(" ?"),
    }
}

/// Writes what the window shows.
fn push_window(
    alloc: Global,
    text: &mut String,
    shown: Option<Result<Option<Message>, LostWindow>>,
) -> Result<(), AllocError> {
    match shown {
        Some(Ok(Some(message))) => push_message(alloc, text, &message),
        Some(Ok(None)) => text.push_str(" none"),
        Some(Err(stopped)) => push_said(alloc, text, stopped),
        None => text.push_str(" ?"),
    }
}

/// Writes what is released.
fn push_released(
    alloc: Global,
    text: &mut String,
    released: Option<Result<u8, ReleaseFault>>,
) -> Result<(), AllocError> {
    match released {
        Some(Ok(bytes)) => push_said(alloc, text, bytes),
        Some(Err(fault)) => push_said(alloc, text, fault),
        None => text.push_str(" ?"),
    }
}

/// Writes the messages that aren't released, in brackets.
fn push_unread<L: Link>(alloc: Global, text: &mut String, link: &L) -> Result<(), AllocError> {
    text.push_str(" (")?;
    for message in link.unread() {
        push_message(alloc, text, message)?;
    }
    text.push_str(" )")
}

/// Writes what a read of the registers sees: the first message, and how many there are.
fn push_seen<L: Link>(alloc: Global, text: &mut String, link: &L) -> Result<(), AllocError> {
    let seen = link.seen();
    text.push_str(" first")?;
    match &seen.first {
        Some(message) => push_message(alloc, text, message)?,
        None => text.push_str(" none")?,
    }
    text.push_str(" of")?;
    push_said(alloc, text, seen.count)
}

/// Writes what was taken.
pub fn push_taken(alloc: Global, text: &mut String, item: Option<Up>) -> Result<(), AllocError> {
    match item {
        Some(item) => push_up(alloc, text, &item),
        None => text.push_str(" none"),
    }
}

/// Writes what is said behind a blank.
pub fn push_said<D: fmt::Debug + Copy>(
    alloc: Global,
    text: &mut String,
    said: D,
) -> Result<(), AllocError> {
    let said = format!(in alloc; " {said:?}")?;
    text.push_str(said.as_str())
}
