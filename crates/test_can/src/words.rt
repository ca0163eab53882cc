//! Starts and requests in words.

use super::hexadecimal::frame_of;
use can_node_rules::{Config, Request};
use test_frames::nodes::PLAIN;

/// How a node is started: in no special mode, with `self_test` or `listen`, and with counters that were written, as
/// `tec=100 rec=20`.
pub fn config_of(words: &str) -> Option<Config> {
    let mut config = PLAIN;
    for word in words.split(' ') {
        set(&mut config, word)?;
    }
    Some(config)
}

/// Sets what a word says.
fn set(config: &mut Config, word: &str) -> Option<()> {
    match word.split_once('=') {
        Some((name, value)) => set_counter(config, name, value.parse::<u8>().ok()?),
        None => set_mode(config, word),
    }
}

/// Sets an error counter that was written.
fn set_counter(config: &mut Config, name: &str, value: u8) -> Option<()> {
    match name {
        "tec" => config.tec = Some(value),
        "rec" => config.rec = Some(value),
        _ => return None,
    }
    Some(())
}

/// Sets a special mode; a word of no letter sets none.
fn set_mode(config: &mut Config, word: &str) -> Option<()> {
    match word {
        "self_test" => config.self_test = true,
        "listen" => config.listen = true,
        "" => {}
        _ => return None,
    }
    Some(())
}

/// A request for the frame of a message, and behind it `once` for a single shot and `own` for a self reception.
pub fn request_of(words: &str) -> Option<Request> {
    let (message, way) = words.split_once(' ').unwrap_or((words, ""));
    Some(Request {
        frame: frame_of(message)?,
        single_shot: way == "once",
        self_receive: way == "own",
    })
}
