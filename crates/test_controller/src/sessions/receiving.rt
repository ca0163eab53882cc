//! A message that a node receives just after its start.

use super::answer::Answer;
use super::calls::step;
use super::many::is_done;
use can_frame::Message;
use sja_session::Session;
use sja_steps::{Step, StepAnswer};

/// Whether a node that has just started receives the message that node 0 sends then, which has this number, and no
/// other one: its window is empty before. An odd one is released, and no other one is behind it; an even one is left
/// unread.
pub fn received(session: &mut Session, node: u8, number: u32) -> bool {
    let Some(message) = numbered(number) else {
        return false;
    };
    answers(session, node, Step::Window, StepAnswer::NoMessage)
        && is_sent(session, message.copy())
        && answers(session, node, Step::Window, StepAnswer::Shown(message))
        && (number % 2 == 0 || is_released(session, node))
}

/// The message with this number in its data.
fn numbered(number: u32) -> Option<Message> {
    let data = number.to_be_bytes();
    Message::from_bytes(&[0x04, 0x24, 0x60, data[0], data[1], data[2], data[3]]).ok()
}

/// Whether node 0 sends a message, after the eleven recessive bits that the other one waits for.
fn is_sent(session: &mut Session, message: Message) -> bool {
    session.bits(11) == Ok(11)
        && is_done(&step(session, 0, Step::Load(message)))
        && is_done(&step(session, 0, Step::Command(0x01)))
        && session.rest().is_ok()
        && is_done(&step(session, 0, Step::Sent))
}

/// Whether a node releases the message, and none is behind it.
fn is_released(session: &mut Session, node: u8) -> bool {
    answers(session, node, Step::Release, StepAnswer::Released(7))
        && answers(session, node, Step::Window, StepAnswer::NoMessage)
}

/// Whether a step is answered so.
fn answers(session: &mut Session, node: u8, tried: Step, wanted: StepAnswer) -> bool {
    matches!(step(session, node, tried), Answer::Step(told) if told == wanted)
}
