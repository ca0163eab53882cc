//! What the program answers where its writers take so much and no more.

use super::answer::put_status;
use super::fed_input::FedInput;
use super::groups::Groups;
use super::narrow::Room;
use super::trial::{Outcome, tried_within};
use std::alloc::Global;
use std::fmt::Write;
use std::io;
use std::sync::Wait;
use std::thread::Threads;

/// The answers where both writers take so many bytes, for each number: in writes of a byte, of which the next one fails
/// or takes nothing, and in writes of any length, of which one takes less, and the next one nothing.
pub(crate) fn each_number<T: Threads + Wait + Sync>(
    rt: &T,
    alloc: Global,
    words: &[String],
    document: &[u8],
    (first, last): (u32, u32),
) -> io::Result<String> {
    let mut groups = Groups::new(alloc);
    for number in first..=last {
        let number = number as usize;
        let (failing, full, room) = rooms(number);
        let text = taken(rt, alloc, words, document, number, failing)?;
        let of_full = taken(rt, alloc, words, document, number, full)?;
        let of_room = taken(rt, alloc, words, document, number, room)?;
        if text == of_full && text == of_room {
            groups.add(number, text)?;
        } else {
            groups.add(number, format!(in alloc; "{text}{of_full}{of_room}")?)?;
        }
    }
    groups.render()
}

/// So many writes of a byte, of which the next one fails or takes nothing, and so many bytes.
fn rooms(number: usize) -> (Room, Room, Room) {
    let failing = Room {
        writes: number,
        bytes: usize::MAX,
        most: 1,
        is_full: false,
    };
    let full = Room {
        writes: number,
        bytes: usize::MAX,
        most: 1,
        is_full: true,
    };
    let room = Room {
        writes: usize::MAX,
        bytes: number,
        most: usize::MAX,
        is_full: true,
    };
    (failing, full, room)
}

/// The status, where as many bytes are as were to be taken, and how many writes were refused.
fn taken<T: Threads + Wait + Sync>(
    rt: &T,
    alloc: Global,
    words: &[String],
    document: &[u8],
    number: usize,
    room: Room,
) -> io::Result<String> {
    let tried = tried_within(
        rt,
        alloc,
        words,
        &mut FedInput::whole(document),
        (room, room),
    );
    let mut text = String::from_str(alloc, " -> ")?;
    put_status(&mut text, &tried)?;
    write!(
        text,
        ", {}, writes refused {}",
        place_of(&tried, number),
        tried.refused
    )?;
    Ok(text)
}

/// Where these many bytes are.
fn place_of(tried: &Outcome, number: usize) -> &'static str {
    let (written, told) = (tried.written.len(), tried.told.len());
    if written == 0 && told == 0 {
        "nothing written"
    } else if written == number && told == 0 {
        "as many bytes on the output"
    } else if told == number && written == 0 {
        "as many bytes on the error output"
    } else {
        "other bytes"
    }
}

/// The status and the bytes that are written, where the output takes so many writes and the error output so many. How
/// long the parser's text is isn't said.
pub(crate) fn so_many<T: Threads + Wait + Sync>(
    rt: &T,
    alloc: Global,
    words: &[String],
    document: &[u8],
    numbers: &str,
) -> io::Result<String> {
    let (out, err) = numbers.split_once(' ').unwrap_or((numbers, ""));
    let rooms = (writes_of(out), writes_of(err));
    let tried = tried_within(rt, alloc, words, &mut FedInput::whole(document), rooms);
    let mut text = String::from_str(alloc, " -> ")?;
    put_status(&mut text, &tried)?;
    write!(text, ", bytes {}", tried.written.len())?;
    if tried.status != Some(2) {
        write!(text, " and {}", tried.told.len())?;
    }
    Ok(text)
}

/// So many writes of any length.
fn writes_of(number: &str) -> Room {
    let writes = number.parse::<usize>().unwrap_or(0);
    Room {
        writes,
        bytes: usize::MAX,
        most: usize::MAX,
        is_full: false,
    }
}
