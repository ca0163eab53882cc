//! Strikes and items in words.

use can_frame::Message;
use can_node_rules::Request;
use sja_journal::Up;
use sja_steps::{FaultScript, Strike};
use std::alloc::Global;
use test_frames::nodes::PLAIN;

/// The number that a word writes in decimal digits.
pub fn number(word: &str) -> Option<u32> {
    word.parse::<u32>().ok()
}

/// The bit that a word writes in decimal digits.
pub fn bit(word: &str) -> Option<u64> {
    word.parse::<u64>().ok()
}

/// The node, or another small number, that a word writes in decimal digits.
pub fn small(word: &str) -> Option<u8> {
    word.parse::<u8>().ok()
}

/// The strike of a word: its node, first bit, distance and number, as `0/60/1/1`.
pub fn strike_of(word: &str) -> Option<Strike> {
    let mut numbers = word.split('/');
    Some(Strike {
        node: small(numbers.next()?)?,
        bit: bit(numbers.next()?)?,
        every: number(numbers.next()?)?,
        times: number(numbers.next()?)?,
    })
}

/// The script of these strikes; none where a word writes no strike, or memory is refused.
pub fn script_of(alloc: Global, words: &[&str]) -> Option<FaultScript> {
    let mut strikes = Vec::new(alloc);
    for word in words {
        strikes.push(strike_of(word)?).ok()?;
    }
    Some(FaultScript::of(strikes))
}

/// The item of a word: `start`, `stop`, `send`, the request for the frame of zeros, or `credit=3`.
pub fn item_of(word: &str) -> Option<Up> {
    match word {
        "start" => Some(Up::Start(PLAIN)),
        "stop" => Some(Up::Stop),
        "send" => Some(Up::Send(request())),
        _ => match word.split_once('=') {
            Some(("credit", bytes)) => Some(Up::Credit(small(bytes)?)),
            _ => None,
        },
    }
}

/// The item of a word, or nothing for `-`.
pub fn shown_of(word: &str) -> Option<Option<Up>> {
    match word {
        "-" => Some(None),
        _ => Some(Some(item_of(word)?)),
    }
}

/// A request for the frame of zeros, to be tried again until it is sent.
fn request() -> Request {
    Request {
        frame: Message::default().frame(),
        single_shot: false,
        self_receive: false,
    }
}
