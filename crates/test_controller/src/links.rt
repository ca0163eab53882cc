//! Links and the ledgers at their ends, and the world of one link: a row is calls of it.
//!
//! Numbers are decimal. A row begins with `queues`, the links of a node of two queues each for 64 activations, `more`,
//! the same for 65, `rings`, those of two rings each, or `world`; [`calls`] and [`worlds`] say what each call is.

mod answers;
mod calls;
mod link;
mod queue_link;
mod rings;
mod words;
mod worlds;

use calls::does;
use link::Link;
use queue_link::QueueLink;
use rings::Rings;
use std::alloc::{AllocError, Global};
use std::io;
use worlds::allowed;

/// What the calls of a row answer, each behind a blank.
pub fn answered(alloc: Global, row: &str) -> io::Result<String> {
    let (kind, calls) = row.split_once("; ").unwrap_or((row, ""));
    match kind {
        "queues" => Ok(told_of(alloc, QueueLink::new(alloc, 64)?, calls)?),
        "more" => Ok(told_of(alloc, QueueLink::new(alloc, 65)?, calls)?),
        "rings" => Ok(told_of(alloc, Rings::new(alloc)?, calls)?),
        "world" => Ok(allowed(alloc, calls)?),
        _ => Ok(String::from_str(alloc, " ?")?),
    }
}

/// What the calls of a link answer.
fn told_of<L: Link + Drop>(alloc: Global, link: L, calls: &str) -> Result<String, AllocError> {
    let mut text = String::new(alloc);
    push_told(alloc, &mut text, link, calls)?;
    Ok(text)
}

/// Writes what the calls of a link answer.
fn push_told<L: Link + Drop>(
    alloc: Global,
    text: &mut String,
    mut link: L,
    calls: &str,
) -> Result<(), AllocError> {
    let done = does_each(alloc, text, &mut link, calls);
    if done.is_ok() && calls.ends_with("settle") {
        link.settle(alloc, text)
    } else {
        done
    }
}

/// Does the calls of a link.
fn does_each<L: Link>(
    alloc: Global,
    text: &mut String,
    link: &mut L,
    calls: &str,
) -> Result<(), AllocError> {
    for call in calls.split("; ") {
        does_call(alloc, text, link, call)?;
    }
    Ok(())
}

/// Does a call.
fn does_call<L: Link>(
    alloc: Global,
    text: &mut String,
    link: &mut L,
    call: &str,
) -> Result<(), AllocError> {
    let words = call.split(' ').collect::<Vec<&str>>(alloc)?;
    does(alloc, text, link, words.as_slice())
}
