//! [`Bench`]: the session of a row.

use super::addresses::swept;
use super::answer::Answer;
use super::calls::{byte_by_byte, called, node_of, number};
use super::session_ends::{ended, push_plan};
use super::struck::alike;
use sja_session::{Session, SessionFault, SessionRoom};
use std::alloc::{AllocError, Global};
use std::fmt;

/// A session, if one was made.
#[derive(Drop)]
pub struct Bench {
    alloc: Global,
    session: Option<Session>,
}

impl Bench {
    /// Without a session.
    pub fn new(alloc: Global) -> Bench {
        Bench {
            alloc,
            session: None,
        }
    }

    /// Does a call, and writes what it answers, each answer behind a blank.
    ///
    /// `new 1 1000 2`, a session of this version with so many bits and nodes, and `new 1 1000 2 3 4` with room for so
    /// many steps and turns; `endless 2`, one without an end with so many nodes; `most 3`, the most room; `alike 0 11
    /// 76`, of [`alike`]; `plan`, what the plan so far has; those that end a session, of [`ended`]; those of [`swept`];
    /// and those of `calls`.
    pub fn does(&mut self, text: &mut String, words: &[&str]) -> Result<(), AllocError> {
        let [name, rest @ ..] = words else {
            return text.push_str(" ?");
        };
        match *name {
            "new" => self.begins(text, rest),
            "endless" => self.begins_endless(text, rest),
            "most" => say_asked(self.alloc, text, most(rest)),
            "alike" => say_alike(self.alloc, text, rest),
            "plan" => self.plans(text),
            "end" => self.ends(text, rest),
            "read" | "write" => self.passes_bytes(text, words),
            "all" | "fill" | "cycle" => self.sweeps(text, words),
            _ => self.calls(text, words),
        }
    }

    /// Makes a session.
    fn begins(&mut self, text: &mut String, words: &[&str]) -> Result<(), AllocError> {
        let Some(asked) = asked_of(words) else {
            return text.push_str(" ?");
        };
        self.takes(text, session_of(self.alloc, asked))
    }

    /// Makes one without an end.
    fn begins_endless(&mut self, text: &mut String, words: &[&str]) -> Result<(), AllocError> {
        let [nodes] = words else {
            return text.push_str(" ?");
        };
        match node_of(nodes) {
            Some(nodes) => self.takes(text, Session::endless(self.alloc, nodes)),
            None => text.push_str(" ?"),
        }
    }

    /// Takes a session that was made.
    fn takes(
        &mut self,
        text: &mut String,
        made: Result<Session, SessionFault>,
    ) -> Result<(), AllocError> {
        match made {
            Ok(session) => {
                self.session = Some(session);
                Ok(())
            }
            Err(fault) => say(self.alloc, text, Answer::NoSession(fault)),
        }
    }

    /// Does a call of the session.
    fn calls(&mut self, text: &mut String, words: &[&str]) -> Result<(), AllocError> {
        match &mut self.session {
            Some(session) => say_asked(self.alloc, text, called(session, words)),
            None => text.push_str(" ?"),
        }
    }

    /// Reads or writes bytes at addresses, one after the other.
    fn passes_bytes(&mut self, text: &mut String, words: &[&str]) -> Result<(), AllocError> {
        match &mut self.session {
            Some(session) => byte_by_byte(self.alloc, text, session, words),
            None => text.push_str(" ?"),
        }
    }

    /// Goes over the addresses of a node, or in and out of its reset mode.
    fn sweeps(&mut self, text: &mut String, words: &[&str]) -> Result<(), AllocError> {
        match &mut self.session {
            Some(session) => swept(self.alloc, text, session, words),
            None => text.push_str(" ?"),
        }
    }

    /// Writes what the plan so far has.
    fn plans(&mut self, text: &mut String) -> Result<(), AllocError> {
        match &self.session {
            Some(session) => push_plan_of(self.alloc, text, session),
            None => text.push_str(" ?"),
        }
    }

    /// Ends the session.
    fn ends(&mut self, text: &mut String, words: &[&str]) -> Result<(), AllocError> {
        match self.session.take() {
            Some(session) => ended(self.alloc, text, session, words),
            None => text.push_str(" ?"),
        }
    }
}

/// Writes an answer behind a blank.
pub fn say<D: fmt::Display + Drop>(
    alloc: Global,
    text: &mut String,
    answer: D,
) -> Result<(), AllocError> {
    let said = format!(in alloc; " {answer}")?;
    text.push_str(said.as_str())
}

/// Writes an answer behind a blank; none is of a row that isn't written as rows are.
pub fn say_asked(
    alloc: Global,
    text: &mut String,
    answer: Option<Answer>,
) -> Result<(), AllocError> {
    match answer {
        Some(answer) => say(alloc, text, answer),
        None => text.push_str(" ?"),
    }
}

/// The most room of a version.
fn most(rest: &[&str]) -> Option<Answer> {
    let [version] = rest else {
        return None;
    };
    Some(Answer::Room(SessionRoom::most(node_of(version)?)))
}

/// Writes what [`alike`] answers.
fn say_alike(alloc: Global, text: &mut String, rest: &[&str]) -> Result<(), AllocError> {
    match alike(alloc, rest)? {
        Some(count) => say(alloc, text, Answer::Count(u64::from(count))),
        None => text.push_str(" ?"),
    }
}

/// Writes what the plan of a session so far has.
fn push_plan_of(alloc: Global, text: &mut String, session: &Session) -> Result<(), AllocError> {
    let plan = session.plan(alloc).map_err(|_| AllocError)?;
    push_plan(alloc, text, &plan)
}

/// What is asked of a session: its version, its bits and its nodes, and room where some is asked for.
type Query = (u8, u32, u8, Option<SessionRoom>);

/// What these words ask; none where they say none.
fn asked_of(words: &[&str]) -> Option<Query> {
    let [version, bits, nodes, room @ ..] = words else {
        return None;
    };
    let room = room_of(room)?;
    Some((node_of(version)?, number(bits)?, node_of(nodes)?, room))
}

/// The room of these words, where they are some; none where they say none.
fn room_of(words: &[&str]) -> Option<Option<SessionRoom>> {
    match words {
        [] => Some(None),
        [steps, turns] => Some(Some(SessionRoom {
            steps: u64::from(number(steps)?),
            turns: u64::from(number(turns)?),
        })),
        _ => None,
    }
}

/// The session that is asked for.
fn session_of(alloc: Global, asked: Query) -> Result<Session, SessionFault> {
    let (version, bits, nodes, room) = asked;
    match room {
        Some(room) => Session::with_room(alloc, version, bits, nodes, room),
        None => Session::new(alloc, version, bits, nodes),
    }
}
