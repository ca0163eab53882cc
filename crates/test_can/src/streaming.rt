//! Calls of a reader that is given one level at a time.

use super::hexadecimal::number;
use super::levels::line_of_message;
use super::row_answers::RowAnswers;
use can_bits::Shift;
use can_frame::Message;
use can_levels::{Level, Segment, ShiftEvent};
use std::alloc::Global;
use test_frames::segments::SEGMENTS;

/// Does a call of the reader of this row.
///
/// `stream 0110`, what it tells of each level: the segment where it is another one, and the level, as `o` or `i` where
/// it is a stuff bit, behind it in brackets the message of the frame that is told, and in braces the fault; `take
/// 0110`, levels of which the faults alone are told; `untold 0110`, before how many of these levels it doesn't say
/// whether the CRC sequence is right; `matches`, whether it is; `due`, whether the ACK slot is next and to be answered;
/// `over`, whether a whole line has come.
pub fn of_reader(told: &mut RowAnswers, shift: &mut Shift, name: &str, rest: &str) {
    match name {
        "stream" => stream(told, shift, rest),
        "take" => take(told, shift, rest),
        "untold" => told.show(untold(shift, rest)),
        "matches" => match shift.crc_matches() {
            Some(so) => told.said(so),
            None => told.say("none"),
        },
        "due" => told.said(shift.ack_is_due()),
        "over" => told.said(shift.is_over()),
        _ => told.unread(),
    }
}

/// Says what the reader tells of each level.
fn stream(told: &mut RowAnswers, shift: &mut Shift, levels: &str) {
    let mut segment = None;
    for digit in levels.as_bytes() {
        let level = Level::of(*digit == b'1');
        let event = shift.step(level);
        if segment != Some(event.segment) {
            segment = Some(event.segment);
            told.name(event.segment);
            told.say("");
        }
        told.join(letter(level, event.stuff));
        brought(told, &event);
    }
}

/// The letter of a level: 0 and o are dominant, 1 and i recessive, and o and i stuff bits.
fn letter(level: Level, stuff: bool) -> &'static str {
    match (level, stuff) {
        (Level::Dominant, false) => "0",
        (Level::Recessive, false) => "1",
        (Level::Dominant, true) => "o",
        (Level::Recessive, true) => "i",
    }
}

/// Goes on with the frame that a level brought, and with what is wrong with it.
fn brought(told: &mut RowAnswers, event: &ShiftEvent) {
    if let Some(frame) = &event.frame {
        told.join("[");
        told.join_bytes(Message::of(frame).bytes());
        told.join("]");
    }
    if let Some(fault) = event.fault {
        told.join("{");
        told.join_name(fault);
        told.join("}");
    }
}

/// Takes levels, and says which of them is wrong.
fn take(told: &mut RowAnswers, shift: &mut Shift, levels: &str) {
    for digit in levels.as_bytes() {
        if let Some(fault) = shift.step(Level::of(*digit == b'1')).fault {
            told.name(fault);
        }
    }
}

/// Before how many of these levels the reader doesn't say whether the CRC sequence is right.
fn untold(shift: &mut Shift, levels: &str) -> u32 {
    let mut untold = 0u32;
    for digit in levels.as_bytes() {
        if shift.crc_matches().is_none() {
            untold = untold.wrapping_add(1);
        }
        shift.step(Level::of(*digit == b'1'));
    }
    untold
}

/// Says the place codes of a message's line: `codes 000000 0 1`, behind so many levels, and whether the stuff bit that
/// comes is an early one, within the identifier.
pub fn codes(alloc: Global, told: &mut RowAnswers, rest: &str) {
    let (message, places) = rest.split_once(' ').unwrap_or((rest, ""));
    let Some(line) = line_of_message(alloc, message) else {
        return told.unread();
    };
    for place in places.split(' ') {
        match number(place) {
            Some(count) => code(told, line.as_slice(), count as usize),
            None => told.unread(),
        }
    }
}

/// Says the place code behind so many levels.
fn code(told: &mut RowAnswers, line: &[Level], count: usize) {
    let mut shift = Shift::new();
    for level in line.iter().take(count) {
        shift.step(*level);
    }
    told.number(shift.place_code(false).map(u32::from));
    if shift.is_early_stuff(false) {
        told.say("early");
    }
}

/// Says the codes of segments: `segment Ide Data`.
pub fn segments(told: &mut RowAnswers, names: &str) {
    for name in names.split(' ') {
        match segment_of(name) {
            Some(segment) => {
                told.say("");
                told.join_bytes(&[segment.code()]);
            }
            None => told.unread(),
        }
    }
}

/// The segment of this name.
fn segment_of(name: &str) -> Option<Segment> {
    for (known, segment) in &SEGMENTS {
        if *known == name {
            return Some(*segment);
        }
    }
    None
}
