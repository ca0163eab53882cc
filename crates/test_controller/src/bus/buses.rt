//! Calls of a bus, whatever its links are.

use super::row_answers::RowAnswers;
use super::wired_bus::WiredBus;
use super::words::{number, small, strike_of};
use sja_link::BusEnd;

/// Does a call of a bus, and says what it answers.
///
/// `gather`, it takes what the drivers gave; `bit`, and `bits 12`, each by a call of its own; `several 12`, so many
/// bits or as many as are left, one after another, and how many they are; `working 12`, the same as long as some node
/// works; `quiet 12`, up to so many at once, and how many they are; `at_once 400`, so many bits, as many at once as the
/// bus can, and how many those were each time; `until 1000`, bits up to the first fault, how many went well, and the
/// fault; `rest`, bits until every node is at rest, and how many they are, and `settle`, the same with nothing said;
/// `rests`, whether every node is at rest; `started 1`, whether a start of this node was taken; `strike 1/60/1/1`,
/// whether a strike more is taken; `until_told 400`, at most so many bits, up to the first in which a port is told its
/// turn, and how many they are; and `until_rest 400`, the same as long as some node works.
pub fn of_bus<E: BusEnd + Drop>(told: &mut RowAnswers, bus: &mut WiredBus<E>, words: &[&str]) {
    match words {
        ["gather"] => told.done(bus.gather()),
        ["bit"] => told.done(bus.bit()),
        ["rest"] => told.count(bus.rest()),
        ["settle"] => match bus.rest() {
            Some(Ok(_)) => {}
            _ => told.unread(),
        },
        ["rests"] => told.said(bus.at_rest()),
        ["started", node] => match small(node) {
            Some(node) => told.said(bus.started(node)),
            None => told.unread(),
        },
        ["strike", row] => match strike_of(row) {
            Some(strike) => told.said(bus.strike(strike)),
            None => told.unread(),
        },
        [name, bits] => match number(bits) {
            Some(bits) => runs(told, bus, name, bits),
            None => told.unread(),
        },
        _ => told.unread(),
    }
}

/// Runs bits.
fn runs<E: BusEnd + Drop>(told: &mut RowAnswers, bus: &mut WiredBus<E>, name: &str, bits: u32) {
    match name {
        "bits" => told.done(bus.bits(bits)),
        "several" => told.count(bus.several(bits, false)),
        "working" => told.count(bus.several(bits, true)),
        "quiet" => told.count(bus.quiet_bits(bits)),
        "until_told" => told.count(bus.until_told(bits, false)),
        "until_rest" => told.count(bus.until_told(bits, true)),
        "at_once" => at_once(told, bus, bits),
        "until" => until(told, bus, bits),
        _ => told.unread(),
    }
}

/// Bits up to the first fault, at most so many; says how many went well, and the fault.
fn until<E: BusEnd + Drop>(told: &mut RowAnswers, bus: &mut WiredBus<E>, most: u32) {
    for bits in 0..most {
        match bus.bit() {
            Some(Ok(())) => {}
            Some(Err(fault)) => {
                told.number(bits);
                return told.name(fault);
            }
            None => return told.unread(),
        }
    }
    told.number(most);
    told.say("none");
}

/// So many bits, as many at once as the bus can, and one where it can't; says how many were run at once each time.
fn at_once<E: BusEnd + Drop>(told: &mut RowAnswers, bus: &mut WiredBus<E>, bits: u32) {
    let mut left = bits;
    for _ in 0..bits {
        if left == 0 {
            break;
        }
        match bus.quiet_bits(bits) {
            Some(Ok(0)) => match bus.bit() {
                Some(Ok(())) => left = left.saturating_sub(1),
                _ => return told.unread(),
            },
            Some(Ok(ran)) => {
                told.number(ran);
                left = left.saturating_sub(ran);
            }
            _ => return told.unread(),
        }
    }
}
