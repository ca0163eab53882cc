//! Calls of a link and of its ledgers in words.

use super::answers::{of_ledger, push_said, push_taken};
use super::link::Link;
use super::words::{down_of, message_of, push_down, push_up, up_of};
use sja_journal::{Down, Verdict};
use sja_link::Busy;
use std::alloc::{AllocError, Global};

/// Does a call, and writes what it answers.
///
/// Past the ledgers: `put 22*3 off`, items downward, of which the first is 22 messages of three bytes; `give 24*stop 7
/// start send`, items upward; `take` and `get` an item, `takes` and `gets` all that are shown; and `passes 100`, so
/// often two messages are put and got. The bus's ledger: `judge 13 3`, `collect`, `off`, `free`. The driver's: `look`,
/// `window`, `release`, `unread`, `seen`. `returns 2`: the link gives one item back once it took so many. `of 2`: what
/// goes past the ledgers goes on the link of this activation from now on. `left`: what was left downward on those
/// that have no queues any more. `settle`, last: what is left on the first link.
pub fn does<L: Link>(
    alloc: Global,
    text: &mut String,
    link: &mut L,
    words: &[&str],
) -> Result<(), AllocError> {
    let [name, rest @ ..] = words else {
        return text.push_str(" ?");
    };
    match *name {
        "put" => puts(text, link, rest),
        "give" => gives(text, link, rest),
        "judge" => judges(text, link, rest),
        "passes" => passes(alloc, text, link, rest),
        "returns" => returns(text, link, rest),
        "of" => of(text, link, rest),
        "left" => link.left(alloc, text),
        "take" | "takes" => takes(alloc, text, link, name),
        "get" | "gets" => gets(alloc, text, link, name),
        "settle" => Ok(()),
        _ => of_ledger(alloc, text, link, name),
    }
}

/// The link gives an item back once it took so many.
fn returns<L: Link>(text: &mut String, link: &mut L, rest: &[&str]) -> Result<(), AllocError> {
    match count_of(rest) {
        Some(after) => {
            link.returns(after);
            Ok(())
        }
        None => text.push_str(" ?"),
    }
}

/// The link of this activation from now on.
fn of<L: Link>(text: &mut String, link: &mut L, rest: &[&str]) -> Result<(), AllocError> {
    match count_of(rest) {
        Some(activation) => {
            link.of(u64::from(activation));
            Ok(())
        }
        None => text.push_str(" ?"),
    }
}

/// The number of one word.
fn count_of(rest: &[&str]) -> Option<u32> {
    match rest {
        [count] => count.parse::<u32>().ok(),
        _ => None,
    }
}

/// How often a word stands, and the item.
fn counted<'a>(word: &'a str) -> Option<(u32, &'a str)> {
    match word.split_once('*') {
        Some((count, item)) => Some((count.parse::<u32>().ok()?, item)),
        None => Some((1, word)),
    }
}

/// Puts items: whether all of a word were put.
fn puts<L: Link>(text: &mut String, link: &mut L, words: &[&str]) -> Result<(), AllocError> {
    for word in words {
        text.push_str(put(link, word).unwrap_or(" ?"))?;
    }
    Ok(())
}

/// Puts the items of a word; what comes back is the item that was put.
fn put<L: Link>(link: &mut L, word: &str) -> Option<&'static str> {
    let (count, word) = counted(word)?;
    for _ in 0..count {
        let item = down_of(word)?;
        match link.put(item.copy()) {
            Ok(()) => {}
            Err(back) if back == item => return Some(" back"),
            Err(_) => return Some(" another back"),
        }
    }
    Some(" ok")
}

/// Gives items: whether all of a word were given.
fn gives<L: Link>(text: &mut String, link: &mut L, words: &[&str]) -> Result<(), AllocError> {
    for word in words {
        text.push_str(give(link, word).unwrap_or(" ?"))?;
    }
    Ok(())
}

/// Gives the items of a word; what comes back is the item that was given.
fn give<L: Link>(link: &mut L, word: &str) -> Option<&'static str> {
    let (count, word) = counted(word)?;
    for _ in 0..count {
        let item = up_of(word)?;
        match link.give(item.copy()) {
            Ok(()) => {}
            Err(back) if back == item => return Some(" back"),
            Err(_) => return Some(" another back"),
        }
    }
    Some(" ok")
}

/// Takes one item, or all that are shown, up to the first time that none is.
fn takes<L: Link>(
    alloc: Global,
    text: &mut String,
    link: &mut L,
    name: &str,
) -> Result<(), AllocError> {
    if name == "take" {
        return push_taken(alloc, text, link.take());
    }
    for _ in 0..100 {
        match link.take() {
            Some(item) => push_up(alloc, text, &item)?,
            None => break,
        }
    }
    Ok(())
}

/// Gets one item, or all that are shown, up to the first time that none is.
fn gets<L: Link>(
    alloc: Global,
    text: &mut String,
    link: &mut L,
    name: &str,
) -> Result<(), AllocError> {
    if name == "get" {
        return push_got(alloc, text, link.get());
    }
    for _ in 0..100 {
        match link.get() {
            Some(item) => push_down(alloc, text, &item)?,
            None => break,
        }
    }
    Ok(())
}

/// Writes what was got.
fn push_got(alloc: Global, text: &mut String, item: Option<Down>) -> Result<(), AllocError> {
    match item {
        Some(item) => push_down(alloc, text, &item),
        None => text.push_str(" none"),
    }
}

/// Puts a message of three bytes and one of four, and gets two items, so often; how often all went.
fn passes<L: Link>(
    alloc: Global,
    text: &mut String,
    link: &mut L,
    rest: &[&str],
) -> Result<(), AllocError> {
    let mut done = 0u32;
    for _ in 0..count_of(rest).unwrap_or(0) {
        if is_passed(link) {
            done = done.saturating_add(1);
        }
    }
    push_said(alloc, text, done)
}

/// Whether two messages are put and got.
fn is_passed<L: Link>(link: &mut L) -> bool {
    put(link, "3") == Some(" ok")
        && put(link, "4") == Some(" ok")
        && link.get().is_some()
        && link.get().is_some()
}

/// What is judged of messages of these lengths.
fn judges<L: Link>(text: &mut String, link: &mut L, words: &[&str]) -> Result<(), AllocError> {
    for word in words {
        text.push_str(judged(link, word).unwrap_or(" ?"))?;
    }
    Ok(())
}

/// What is judged of messages of one length, the last of them.
fn judged<L: Link>(link: &mut L, word: &str) -> Option<&'static str> {
    let (count, word) = counted(word)?;
    let mut said = " ?";
    for _ in 0..count {
        let message = message_of(word.parse::<u8>().ok()?)?;
        said = match link.judge(message)? {
            Ok(Verdict::Stored) => " stored",
            Ok(Verdict::Overrun) => " overrun",
            Err(Busy) => " busy",
        };
    }
    Some(said)
}
