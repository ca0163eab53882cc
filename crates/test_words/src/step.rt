//! Steps and messages in words.

use super::{address, byte, bytes};
use can_frame::Message;
use sja_steps::Step;

/// The step of these words: `start`, `stop`, `window`, `release`, `sent`, `interrupt`, `read SR`, `write IER 01`,
/// `load 00 24 60`, `command 01`, `await 2` or `at 500`; none where they are none.
pub fn step_of(words: &[&str]) -> Option<Step> {
    match words {
        [name] => of_one_word(name),
        ["read", at] => Some(Step::Read(address(at)?)),
        ["write", at, value] => Some(Step::Write(address(at)?, byte(value)?)),
        ["command", value] => Some(Step::Command(byte(value)?)),
        ["await", count] => Some(Step::Await(byte(count)?)),
        ["at", bits] => Some(Step::At(bits.parse::<u32>().ok()?)),
        ["load", words @ ..] => Some(Step::Load(message_of(words)?)),
        _ => None,
    }
}

/// The step of one word.
fn of_one_word(name: &str) -> Option<Step> {
    match name {
        "start" => Some(Step::Start),
        "stop" => Some(Step::Stop),
        "window" => Some(Step::Window),
        "release" => Some(Step::Release),
        "sent" => Some(Step::Sent),
        "interrupt" => Some(Step::Interrupt),
        _ => None,
    }
}

/// The message of these bytes.
pub fn message_of(words: &[&str]) -> Option<Message> {
    let bytes = bytes(words)?;
    Message::from_bytes(bytes.get(..words.len())?).ok()
}
