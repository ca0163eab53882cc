//! Calls that ask what is left of a bus.

use super::logs::{
    bits_in, ends_off, entries_in, first_in, next_dominant, stored_by_activation, verdicts_in,
};
use super::row_answers::RowAnswers;
use super::words::small;
use sja_bus::NodeLog;

/// Says what is left of a node, or of all.
///
/// `nodes`, how many there are; and of a node, as `stored 1`: `stored`, how many messages its journal stored and how
/// many it lost as overrun; `first`, the first that it stored; `length`, how many bits it has, and `entries`; `counts`,
/// the error counters, that of the transmitter first; `ends_off`, whether the journal ends with bus-off; `activations`,
/// how many messages it stored in the first activation and in the second; `dominant`, in which bits the node saw a
/// dominant level.
pub fn of_left(told: &mut RowAnswers, logs: &[NodeLog], name: &str, rest: &[&str]) {
    match (name, rest) {
        ("nodes", []) => told.length(logs.len()),
        (_, [node]) => match log_of(logs, node) {
            Some(log) => of_node(told, log, name),
            None => told.unread(),
        },
        _ => told.unread(),
    }
}

/// What is left of the node that a word names.
fn log_of<'a>(logs: &'a [NodeLog], node: &str) -> Option<&'a NodeLog> {
    logs.get(usize::from(small(node)?))
}

/// Says what is left of a node.
fn of_node(told: &mut RowAnswers, log: &NodeLog, name: &str) {
    match name {
        "stored" => pair(told, verdicts_in(&log.journal)),
        "activations" => pair(told, stored_by_activation(&log.journal)),
        "counts" => pair(told, (u32::from(log.txerr), u32::from(log.rxerr))),
        "length" => told.number(bits_in(&log.journal)),
        "entries" => told.number(entries_in(&log.journal)),
        "ends_off" => told.said(ends_off(&log.journal)),
        "first" => match first_in(&log.journal) {
            Some(message) => told.message(&message),
            None => told.say("none"),
        },
        "dominant" => dominant(told, log),
        _ => told.unread(),
    }
}

/// Says two numbers.
fn pair(told: &mut RowAnswers, numbers: (u32, u32)) {
    told.number(numbers.0);
    told.number(numbers.1);
}

/// Says in which bits a node saw a dominant level, up to nine.
fn dominant(told: &mut RowAnswers, log: &NodeLog) {
    let mut from = 0u32;
    for _ in 0..9 {
        match next_dominant(&log.journal, from) {
            Some(bit) => {
                told.number(bit);
                from = bit.wrapping_add(1);
            }
            None if from == 0 => return told.say("none"),
            None => return,
        }
    }
}
