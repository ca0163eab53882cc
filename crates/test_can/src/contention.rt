//! Calls of frames whose transmitters start together.

use super::hexadecimal::frame_of;
use super::node::Station;
use super::row_answers::RowAnswers;
use super::wire::Wire;
use can_frame::Frame;
use can_node::contend;
use std::alloc::Global;

/// Says where frames that start together lose arbitration: `contend 002460 402470`, the place code of each by
/// comparison, or `-` where its transmitter goes on.
pub fn contended(alloc: Global, told: &mut RowAnswers, rest: &str) {
    let Some(frames) = frames_of(alloc, rest) else {
        return told.unread();
    };
    let Ok(places) = contend(alloc, frames.as_slice()) else {
        return told.refuse();
    };
    let words = told.words();
    for place in places.as_slice() {
        told.say("");
        join_code(told, *place);
    }
    told.quiet_since(words);
}

/// The frames of these messages, with a blank between two.
fn frames_of(alloc: Global, messages: &str) -> Option<Vec<Frame>> {
    let mut frames = Vec::new(alloc);
    for message in messages.split(' ') {
        if !message.is_empty() {
            frames.push(frame_of(message)?).ok()?;
        }
    }
    Some(frames)
}

/// Goes on with a place code.
fn join_code(told: &mut RowAnswers, code: Option<u8>) {
    match code {
        Some(code) => told.join_number(u32::from(code)),
        None => told.join("-"),
    }
}

/// Says where frames that start together lose arbitration, by comparison and on a wire: `together 002460 402470`, of
/// each the place codes by comparison, of its first loss and of its last one; and behind them whether each was sent
/// behind the one before it, and each station received the frames of all others.
pub fn together(alloc: Global, told: &mut RowAnswers, rest: &str) {
    let Some(frames) = frames_of(alloc, rest) else {
        return told.unread();
    };
    let Ok(places) = contend(alloc, frames.as_slice()) else {
        return told.refuse();
    };
    let Some(mut wire) = Wire::of(alloc, frames.as_slice()) else {
        return told.refuse();
    };
    let rests = wire.run_to_rest();
    for (station, place) in wire.stations().iter().zip(places.iter()) {
        losses(told, station, *place);
    }
    told.said(rests && places.len() == frames.len() && are_sent_in_order(wire.stations()));
}

/// Says the place codes of a station's losses, behind that by comparison.
fn losses(told: &mut RowAnswers, station: &Station, place: Option<u8>) {
    told.say("");
    join_code(told, place);
    told.join("/");
    join_code(told, station.first_code());
    told.join("/");
    join_code(told, station.last_code());
}

/// Whether each station sent behind the one before it, and received as many frames as there are others.
fn are_sent_in_order(stations: &[Station]) -> bool {
    let mut right = true;
    let mut before = None;
    for station in stations {
        right = right && station.sent > before;
        right = right && station.received as usize == stations.len().saturating_sub(1);
        before = station.sent;
    }
    right
}
