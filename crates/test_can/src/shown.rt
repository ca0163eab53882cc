//! Calls that ask what a station shows.

use super::bits::tell_counters;
use super::levels::digit;
use super::node::Station;
use super::row_answers::RowAnswers;
use can_frame::Message;

/// Says what a station shows.
///
/// Of its node: `counts`, its error counters; `state`; `phase`; `drives`, the level of the next bit; `rests`; `off`,
/// whether bus-off stands. Of what it was told: `got`, how many frames it received, and the message of the last;
/// `sent`, the bit in which its own was; `failed`, how many of its requests did; `lost`, where it lost arbitration
/// first and last, the bit and the place code.
pub fn of_station(told: &mut RowAnswers, station: &Station, name: &str) {
    match name {
        "counts" => tell_counters(told, station.counters()),
        "state" => told.name(station.counters().state()),
        "off" => told.said(station.counters().off),
        "phase" => told.name(station.phase()),
        "drives" => told.say(digit(station.drives())),
        "rests" => told.said(station.rests()),
        "got" => got(told, station),
        "sent" => told.number(station.sent),
        "failed" => told.show(station.failed),
        "lost" => {
            lost(told, station.first_lost);
            lost(told, station.last_lost);
        }
        _ => told.unread(),
    }
}

/// Says how many frames a station received, and the message of the last one.
fn got(told: &mut RowAnswers, station: &Station) {
    told.show(station.received);
    if let Some(frame) = &station.last {
        told.message(&Message::of(frame));
    }
}

/// Says where arbitration was lost.
fn lost(told: &mut RowAnswers, lost: Option<(u32, u8)>) {
    match lost {
        Some((bit, code)) => {
            told.show(bit);
            told.join("/");
            told.join_number(u32::from(code));
        }
        None => told.say("none"),
    }
}
