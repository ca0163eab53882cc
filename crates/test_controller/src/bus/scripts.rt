//! Scripts of strikes.

use super::row_answers::RowAnswers;
use super::words::{bit, number, script_of, small};
use sja_steps::FaultScript;
use std::alloc::Global;

/// Does a call of a script.
///
/// `struck 0 40 0/3/4/3`, which of the first 40 bits strike node 0, of these strikes; `strikes 20 0 0/3/4/3`, whether
/// bit 20 strikes it; `listed 0/3/4/3`, how many strikes a script has.
pub fn of_script(alloc: Global, told: &mut RowAnswers, words: &[&str]) {
    match words {
        ["struck", node, bits, strikes @ ..] => {
            match (small(node), number(bits), script_of(alloc, strikes)) {
                (Some(node), Some(bits), Some(script)) => say_strikes(told, &script, node, bits),
                _ => told.unread(),
            }
        }
        ["strikes", at, node, strikes @ ..] => {
            match (bit(at), small(node), script_of(alloc, strikes)) {
                (Some(at), Some(node), Some(script)) => told.said(script.strikes(at, node)),
                _ => told.unread(),
            }
        }
        ["listed", strikes @ ..] => match script_of(alloc, strikes) {
            Some(script) => told.length(script.as_slice().len()),
            None => told.unread(),
        },
        _ => told.unread(),
    }
}

/// Says which of the first so many bits strike a node.
fn say_strikes(told: &mut RowAnswers, script: &FaultScript, node: u8, bits: u32) {
    let mut any = false;
    for bit in 0..bits {
        if script.strikes(u64::from(bit), node) {
            any = true;
            told.number(bit);
        }
    }
    if !any {
        told.say("none");
    }
}
