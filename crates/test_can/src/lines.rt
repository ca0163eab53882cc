//! Calls of lines: their levels, CRC sequences, and what they read as.

use super::hexadecimal::{frame_of, number};
use super::levels::{digit, level_of, levels_of, line_of_message};
use super::row_answers::RowAnswers;
use super::stuffing::received_line;
use can_bits::{SentBody, Shift, crc_of, read_line};
use can_frame::{Frame, Message};
use can_levels::{Level, LineFault};
use std::alloc::{AllocError, Global};

/// Does a call of whole lines.
///
/// `line 000000`, the levels of the line of the frame of a message, and `front 000000 7` its first ones; `crc 0110`,
/// the CRC sequence of levels; `reads 0110`, the message of the frame that levels read as, and `again 000000` what the
/// line of a frame reads as before and after it is acknowledged; `body 0110`, what the acknowledged line of a body
/// reads as; `fronts 0110`, how many shorter beginnings of levels are refused as truncated, and what all of them read
/// as; `says 000000`, whether a reader says each level of a line before it comes; and `levels`, of [`Level`].
pub fn of_lines(alloc: Global, told: &mut RowAnswers, name: &str, rest: &str) {
    match name {
        "line" => line(alloc, told, rest, None),
        "front" => match rest.split_once(' ') {
            Some((message, count)) => line(alloc, told, message, number(count)),
            None => told.unread(),
        },
        "crc" => crc(alloc, told, rest),
        "reads" => reads(alloc, told, rest),
        "again" => again(alloc, told, rest),
        "body" => body(alloc, told, rest),
        "fronts" => fronts(alloc, told, rest),
        "says" => says(alloc, told, rest),
        "levels" => levels(told),
        _ => told.unread(),
    }
}

/// Says the levels of the line of the frame of a message, or the first of them.
fn line(alloc: Global, told: &mut RowAnswers, message: &str, count: Option<u32>) {
    let Some(line) = line_of_message(alloc, message) else {
        return told.unread();
    };
    let count = match count {
        Some(count) => count as usize,
        None => line.len(),
    };
    told.say("");
    for level in line.iter().take(count) {
        told.join(digit(*level));
    }
}

/// Says the CRC sequence of levels.
fn crc(alloc: Global, told: &mut RowAnswers, text: &str) {
    let Ok(levels) = levels_of(alloc, text) else {
        return told.refuse();
    };
    told.say("");
    told.join_bytes(&crc_of(levels.as_slice()).to_be_bytes());
}

/// Says what levels read as.
fn reads(alloc: Global, told: &mut RowAnswers, text: &str) {
    let Ok(levels) = levels_of(alloc, text) else {
        return told.refuse();
    };
    tell(told, read_line(levels.as_slice()));
}

/// Says the message of a frame that was read, or what is wrong with the line.
fn tell(told: &mut RowAnswers, read: Result<Frame, LineFault>) {
    match read {
        Ok(frame) => told.message(&Message::of(&frame)),
        Err(fault) => told.name(fault),
    }
}

/// Says what the line of a frame reads as, and what with its ACK slot, the ninth level from the end, dominant.
fn again(alloc: Global, told: &mut RowAnswers, message: &str) {
    let Some(mut line) = line_of_message(alloc, message) else {
        return told.unread();
    };
    tell(told, read_line(line.as_slice()));
    let slot = line.len().saturating_sub(9);
    if let Some(level) = line.get_mut(slot) {
        *level = Level::Dominant;
    }
    tell(told, read_line(line.as_slice()));
}

/// Says what the acknowledged line of a body reads as.
fn body(alloc: Global, told: &mut RowAnswers, text: &str) {
    match line_of_body(alloc, text) {
        Ok(line) => tell(told, read_line(line.as_slice())),
        Err(_) => told.refuse(),
    }
}

/// The acknowledged line of a body.
fn line_of_body(alloc: Global, text: &str) -> Result<Vec<Level>, AllocError> {
    received_line(alloc, levels_of(alloc, text)?.as_slice())
}

/// Says how many shorter beginnings of levels are truncated, and what all of them read as.
fn fronts(alloc: Global, told: &mut RowAnswers, text: &str) {
    let Ok(levels) = levels_of(alloc, text) else {
        return told.refuse();
    };
    told.show(truncated_in(levels.as_slice()));
    tell(told, read_line(levels.as_slice()));
}

/// How many shorter beginnings of levels are truncated.
fn truncated_in(levels: &[Level]) -> u32 {
    let mut truncated = 0u32;
    for count in 0..levels.len() {
        let front = levels.get(..count).unwrap_or(&[]);
        if read_line(front) == Err(LineFault::Truncated) {
            truncated = truncated.wrapping_add(1);
        }
    }
    truncated
}

/// Says whether a reader of one level at a time says each level of a frame's line before it comes, also past a dominant
/// ACK slot.
fn says(alloc: Global, told: &mut RowAnswers, message: &str) {
    match says_each(alloc, message) {
        Some(so) => told.said(so),
        None => told.unread(),
    }
}

/// Whether it does.
fn says_each(alloc: Global, message: &str) -> Option<bool> {
    let line = line_of_message(alloc, message)?;
    let slot = line.len().saturating_sub(9);
    let body = SentBody::of(&frame_of(message)?);
    let mut shift = Shift::new();
    let mut said = true;
    for (at, level) in line.iter().enumerate() {
        said = said && shift.next_of(&body) == *level;
        let seen = if at == slot { Level::Dominant } else { *level };
        said = said && shift.step(seen).fault.is_none();
    }
    Some(said && shift.is_over())
}

/// Says the level that is made without a digit, that of the digit 1, the digit of a recessive level, and the level that
/// a dominant one isn't.
fn levels(told: &mut RowAnswers) {
    told.name(Level::default());
    told.name(Level::of(true));
    told.show(Level::Recessive.digit());
    told.name(Level::Dominant.opposite());
}
