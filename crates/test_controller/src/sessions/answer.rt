//! [`Answer`]: what a call of a session answers.

use sja_plan::Place;
use sja_session::{
    PlaceOutcome, PlaceRefusal, RestOutcome, SessionFault, SessionRoom, StepFault, StrikeFault,
    TurnsUsed, WatchOutcome,
};
use sja_steps::StepAnswer;
use std::fmt;
use test_words::AnswerText;

/// What a call of a session answers.
#[derive(Drop)]
pub enum Answer {
    /// It was done.
    Done,
    /// A step was done with this answer.
    Step(StepAnswer),
    /// It was done with this answer, and the session tells another one as the node's last.
    OtherLast(StepAnswer),
    /// The step has to wait.
    Waits,
    /// There is none.
    Nothing,
    /// Whether something is so.
    Said(bool),
    /// A number.
    Count(u64),
    /// A value of a register.
    Byte(u8),
    /// So many reads with one value.
    Times(u32, u8),
    /// Whose line rose.
    Rose(Option<u8>),
    /// Bits until all are at rest.
    Rested(RestOutcome),
    /// Bits until a line rises.
    Watched(WatchOutcome),
    /// Bits up to a place.
    Reached(PlaceOutcome),
    /// The place of a node.
    At(Place),
    /// Room for steps and turns.
    Room(SessionRoom),
    /// There is no such session.
    NoSession(SessionFault),
    /// The step isn't tried.
    NoStep(StepFault),
    /// The bit isn't struck.
    NoStrike(StrikeFault),
    /// No bit is run up to a place.
    NoWay(PlaceRefusal),
    /// No bit is run.
    NoTurn(TurnsUsed),
    /// The row isn't written as rows are.
    Unread,
}

impl fmt::Display for Answer {
    fn fmt<W: fmt::Write>(&self, f: &mut fmt::Formatter<W>) -> fmt::Result {
        match self.word() {
            Some(word) => f.write_str(word),
            None => write_answer(f, self),
        }
    }
}

impl Answer {
    /// The word for it, where it is one.
    fn word(&self) -> Option<&'static str> {
        match self {
            Answer::Done => Some("ok"),
            Answer::Waits => Some("waits"),
            Answer::Nothing => Some("none"),
            Answer::Said(true) => Some("yes"),
            Answer::Said(false) => Some("no"),
            Answer::Unread => Some("?"),
            _ => None,
        }
    }
}

/// Writes an answer of more than a word.
fn write_answer<W: fmt::Write>(f: &mut fmt::Formatter<W>, answer: &Answer) -> fmt::Result {
    match answer {
        Answer::Step(answer) => fmt::Display::fmt(&AnswerText(answer), f),
        Answer::OtherLast(answer) => write_other(f, answer),
        Answer::Rested(rested) => write_rested(f, *rested),
        Answer::Watched(watched) => write_watched(f, *watched),
        Answer::Rose(rose) => write_rose(f, *rose),
        Answer::Reached(reached) => write_reached(f, *reached),
        Answer::At(place) => fmt::Debug::fmt(place, f),
        Answer::Room(room) => write_room(f, *room),
        _ => write_number(f, answer),
    }
}

/// Writes a number.
fn write_number<W: fmt::Write>(f: &mut fmt::Formatter<W>, answer: &Answer) -> fmt::Result {
    match answer {
        Answer::Count(count) => fmt::Display::fmt(count, f),
        Answer::Byte(value) => write_byte(f, *value),
        Answer::Times(count, value) => write_times(f, *count, *value),
        _ => write_fault(f, answer),
    }
}

/// Writes why something isn't done.
fn write_fault<W: fmt::Write>(f: &mut fmt::Formatter<W>, answer: &Answer) -> fmt::Result {
    match answer {
        Answer::NoSession(fault) => fmt::Debug::fmt(fault, f),
        Answer::NoStep(fault) => fmt::Debug::fmt(fault, f),
        Answer::NoStrike(fault) => fmt::Debug::fmt(fault, f),
        Answer::NoWay(fault) => fmt::Debug::fmt(fault, f),
        Answer::NoTurn(fault) => fmt::Debug::fmt(fault, f),
        _ => Ok(()),
    }
}

/// Writes how many bits were run up to a place, and whether the node is there.
fn write_reached<W: fmt::Write>(f: &mut fmt::Formatter<W>, reached: PlaceOutcome) -> fmt::Result {
    fmt::Display::fmt(&reached.bits, f)?;
    f.write_str(if reached.there { " there" } else { " away" })
}

/// Writes a byte.
fn write_byte<W: fmt::Write>(f: &mut fmt::Formatter<W>, value: u8) -> fmt::Result {
    write!(f, "{value:02x}")
}

/// Writes an answer that isn't the one that the session tells as the node's last.
fn write_other<W: fmt::Write>(f: &mut fmt::Formatter<W>, answer: &StepAnswer) -> fmt::Result {
    fmt::Display::fmt(&AnswerText(answer), f)?;
    f.write_str(" and another last")
}

/// Writes how many reads have one value.
fn write_times<W: fmt::Write>(f: &mut fmt::Formatter<W>, count: u32, value: u8) -> fmt::Result {
    fmt::Display::fmt(&count, f)?;
    f.write_str(" times ")?;
    write_byte(f, value)
}

/// Writes room for steps and turns.
fn write_room<W: fmt::Write>(f: &mut fmt::Formatter<W>, room: SessionRoom) -> fmt::Result {
    fmt::Display::fmt(&room.steps, f)?;
    f.write_str(" steps ")?;
    fmt::Display::fmt(&room.turns, f)?;
    f.write_str(" turns")
}

/// Writes bits until all are at rest.
fn write_rested<W: fmt::Write>(f: &mut fmt::Formatter<W>, rested: RestOutcome) -> fmt::Result {
    fmt::Display::fmt(&rested.bits, f)?;
    f.write_str(if rested.at_rest {
        " to rest"
    } else {
        " to no rest"
    })
}

/// Writes bits until a line rises.
fn write_watched<W: fmt::Write>(f: &mut fmt::Formatter<W>, watched: WatchOutcome) -> fmt::Result {
    fmt::Display::fmt(&watched.bits, f)?;
    f.write_str(" ")?;
    write_rose(f, watched.rose)
}

/// Writes whose line rose.
fn write_rose<W: fmt::Write>(f: &mut fmt::Formatter<W>, rose: Option<u8>) -> fmt::Result {
    match rose {
        Some(node) => {
            f.write_str("rose ")?;
            fmt::Display::fmt(&node, f)
        }
        None => f.write_str("none rose"),
    }
}
