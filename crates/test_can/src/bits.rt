//! Calls that are bits of one station alone, which sees given levels or what it drives.

use super::confinement::{is_struck, recovers};
use super::events::tell;
use super::hexadecimal::number;
use super::levels::level_of;
use super::node::Station;
use super::row_answers::RowAnswers;
use can_levels::Level;
use can_node_rules::{Counters, Phase};

/// Does a call that is bits of a station. Of each bit is said what it brings, or `quiet` where no bit brings anything.
///
/// `see 1 11`, the level 1 in so many bits; it `drives` where it is dominant there. `echo 52`, what the station drives
/// in so many bits, and `flip`, the other level in one; `hear 0110`, these levels as a wire has them on which the
/// station is the only other, `drives` where it is dominant there, and `sending` where it is transmitter; `phases 1 3`,
/// as `see`, with each phase before these bits and how many it has; `count 0 8`, as `see`, with the error counters
/// after these bits alone, and how many they last; `pass 1 700`, `see` with nothing said, and `run 700`, `echo` with
/// nothing said; and `struck 698` and `falls`, of [`is_struck`] and [`recovers`].
pub fn of_bits(told: &mut RowAnswers, station: &mut Station, name: &str, rest: &str) {
    match name {
        "flip" => {
            let level = station.drives().opposite();
            one(told, station, level);
        }
        "hear" => hear(told, station, rest),
        "falls" => told.said(recovers(station)),
        "echo" | "run" | "struck" => own(told, station, name, number(rest).unwrap_or(0)),
        _ => match level_and_bits(rest) {
            Some((level, bits)) => given(told, station, name, level, bits),
            None => told.unread(),
        },
    }
}

/// A level, and how many bits have it.
fn level_and_bits(rest: &str) -> Option<(Level, u32)> {
    let (level, bits) = rest.split_once(' ')?;
    Some((level_of(level)?, number(bits)?))
}

/// So many bits with what the station drives.
fn own(told: &mut RowAnswers, station: &mut Station, name: &str, bits: u32) {
    match name {
        "echo" => echo(told, station, bits),
        "struck" => strike(told, station, bits),
        _ => {
            for _ in 0..bits {
                let level = station.drives();
                station.sees(level);
            }
        }
    }
}

/// So many bits with a given level.
fn given(told: &mut RowAnswers, station: &mut Station, name: &str, level: Level, bits: u32) {
    match name {
        "see" => see(told, station, level, bits),
        "phases" => phases(told, station, level, bits),
        "count" => count(told, station, level, bits),
        "pass" => {
            for _ in 0..bits {
                station.sees(level);
            }
        }
        _ => told.unread(),
    }
}

/// A bit with this level; says what it brings.
fn one(told: &mut RowAnswers, station: &mut Station, level: Level) {
    let bit = station.bit;
    let events = station.sees(level);
    tell(told, bit, &events);
}

/// A bit with this level; says where the station drives dominant, and what the bit brings.
fn seen(told: &mut RowAnswers, station: &mut Station, level: Level) {
    if station.drives() == Level::Dominant {
        told.at(station.bit, "drives");
    }
    one(told, station, level);
}

/// So many bits with this level.
fn see(told: &mut RowAnswers, station: &mut Station, level: Level, bits: u32) {
    let words = told.words();
    for _ in 0..bits {
        seen(told, station, level);
    }
    told.quiet_since(words);
}

/// So many bits with what the station drives.
fn echo(told: &mut RowAnswers, station: &mut Station, bits: u32) {
    let words = told.words();
    for _ in 0..bits {
        let level = station.drives();
        one(told, station, level);
    }
    told.quiet_since(words);
}

/// These levels, dominant where the station drives dominant.
fn hear(told: &mut RowAnswers, station: &mut Station, levels: &str) {
    let words = told.words();
    for digit in levels.as_bytes() {
        let own = station.drives();
        let wire = Level::of(*digit == b'1' && own.is_recessive());
        heard(told, station, own, wire);
    }
    told.quiet_since(words);
}

/// A bit of a wire in which the station drives this level.
fn heard(told: &mut RowAnswers, station: &mut Station, own: Level, wire: Level) {
    let bit = station.bit;
    if own == Level::Dominant {
        told.at(bit, "drives");
    }
    let events = station.sees(wire);
    if !events.receiving {
        told.at(bit, "sending");
    }
    tell(told, bit, &events);
}

/// So many bits with this level; says each phase before them, and how many bits have it.
fn phases(told: &mut RowAnswers, station: &mut Station, level: Level, bits: u32) {
    let mut now = station.phase();
    let mut count = 0u32;
    for _ in 0..bits {
        let phase = station.phase();
        if phase != now {
            tell_phase(told, now, count);
            now = phase;
            count = 0;
        }
        count = count.wrapping_add(1);
        seen(told, station, level);
    }
    tell_phase(told, now, count);
}

/// Says a phase, and how many bits have it.
fn tell_phase(told: &mut RowAnswers, phase: Phase, count: u32) {
    told.name(phase);
    told.show(count);
}

/// So many bits with this level; says the error counters after them, and how many bits they last.
fn count(told: &mut RowAnswers, station: &mut Station, level: Level, bits: u32) {
    let mut now = station.counters();
    let mut count = 0u32;
    for _ in 0..bits {
        station.sees(level);
        let counters = station.counters();
        if counters != now {
            tell_counters(told, now);
            told.show(count);
            now = counters;
            count = 0;
        }
        count = count.wrapping_add(1);
    }
    tell_counters(told, now);
    told.show(count);
}

/// Says the error counters, that of the transmitter first.
pub fn tell_counters(told: &mut RowAnswers, counters: Counters) {
    told.show(counters.tec);
    told.join("/");
    told.join_number(u32::from(counters.rec));
}

/// So many bits with what the station drives, or the other level where they are struck; says of how many struck bits it
/// was idle, drove dominant and had a fault, and else what they bring.
fn strike(told: &mut RowAnswers, station: &mut Station, bits: u32) {
    let mut starts = 0u32;
    for bit in 0..bits {
        let own = station.drives();
        let struck = is_struck(bit);
        let idle = station.phase() == Phase::Idle && own == Level::Dominant;
        let mut events = station.sees(if struck { own.opposite() } else { own });
        if struck && idle && events.fault.is_some() {
            starts = starts.wrapping_add(1);
            events.fault = None;
        }
        tell(told, bit, &events);
    }
    told.show(starts);
}
