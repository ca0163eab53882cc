//! Calls that generate: two ways, or three, have to say the same.

use super::agreement::other_list;
use super::hexadecimal::number;
use super::quick::quick_bits;
use super::row_answers::RowAnswers;
use super::sets::other_set;
use std::alloc::{AllocError, Global};

/// Does a call that generates.
///
/// `readers 2000`, whether three readers agree on so many lists of levels; `sets 500`, whether wire and comparison
/// agree on so many sets of eight frames; `quick 100000`, whether the quick way of a bit and the plain one agree on so
/// many bits, and whether the first pair of nodes took more than half of them the quick way, but not all.
pub fn of_generated(alloc: Global, told: &mut RowAnswers, name: &str, rest: &str) {
    let Some(count) = number(rest) else {
        return told.unread();
    };
    match name {
        "readers" => agreed(told, other_list(alloc, count)),
        "sets" => agreed(told, other_set(alloc, count)),
        "quick" => quick(told, count),
        _ => told.unread(),
    }
}

/// Says that all agreed, or the first number of which they didn't.
fn agreed(told: &mut RowAnswers, other: Result<Option<u32>, AllocError>) {
    match other {
        Ok(None) => told.said(true),
        Ok(Some(number)) => {
            told.said(false);
            told.show(number);
        }
        Err(_) => told.refuse(),
    }
}

/// Says whether the two ways agreed, and whether more than half of the bits went the quick way, but not all.
fn quick(told: &mut RowAnswers, count: u32) {
    match quick_bits(count) {
        Some(quick) => {
            told.said(true);
            told.said(quick > count / 2 && quick < count);
        }
        None => told.said(false),
    }
}
