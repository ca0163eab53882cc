//! Answers and messages as text.

use can_frame::Message;
use sja_steps::StepAnswer;
use std::fmt;

/// What a step answered, as rows have it.
#[derive(Clone, Copy)]
pub struct AnswerText<'a>(pub &'a StepAnswer);

impl<'a> fmt::Display for AnswerText<'a> {
    fn fmt<W: fmt::Write>(&self, f: &mut fmt::Formatter<W>) -> fmt::Result {
        match self.0 {
            StepAnswer::Done | StepAnswer::Ignored(_) => write!(f, "ok"),
            StepAnswer::NoMessage => write!(f, "none"),
            StepAnswer::Shown(message) => shown(f, message),
            StepAnswer::Released(count) => write!(f, "{count} bytes"),
            StepAnswer::Value(value) => write!(f, "{value:02x}"),
            StepAnswer::Refused(refusal) => write!(f, "{refusal}"),
        }
    }
}

/// A message, by its bytes in brackets.
#[derive(Clone, Copy)]
pub struct Bytes<'a>(pub &'a Message);

impl<'a> fmt::Display for Bytes<'a> {
    fn fmt<W: fmt::Write>(&self, f: &mut fmt::Formatter<W>) -> fmt::Result {
        shown(f, self.0)
    }
}

/// Writes the bytes of a message.
fn shown<W: fmt::Write>(f: &mut fmt::Formatter<W>, message: &Message) -> fmt::Result {
    write!(f, "[")?;
    for (place, byte) in message.bytes().iter().enumerate() {
        let blank = if place == 0 { "" } else { " " };
        write!(f, "{blank}{byte:02x}")?;
    }
    write!(f, "]")
}
