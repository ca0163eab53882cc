//! [`RowAnswers`]: what the calls of a row have answered.

use can_frame::Message;
use std::alloc::{AllocError, Global};
use std::fmt;
use test_rows::Line;
use test_words::Bytes;

/// What the calls of a row have answered, each answer behind a blank.
#[derive(Drop)]
pub struct RowAnswers {
    alloc: Global,
    line: Line,
}

impl RowAnswers {
    /// Nothing yet.
    pub fn new(alloc: Global) -> RowAnswers {
        RowAnswers {
            alloc,
            line: Line::new(alloc),
        }
    }

    /// The text of all answers, or that memory was refused.
    pub fn text(self) -> Result<String, AllocError> {
        self.line.text()
    }

    /// Says a word.
    pub fn say(&mut self, word: &str) {
        self.line.join(" ");
        self.line.join(word);
    }

    /// Says a word that was made, where there was memory for it.
    fn say_made(&mut self, made: Option<String>) {
        self.line.join(" ");
        self.line.join_made(made);
    }

    /// Says a number.
    pub fn number(&mut self, number: u32) {
        let made = format!(in self.alloc; "{number}").ok();
        self.say_made(made);
    }

    /// Says how many items there are.
    pub fn length(&mut self, count: usize) {
        let made = format!(in self.alloc; "{count}").ok();
        self.say_made(made);
    }

    /// Says the value of a register.
    pub fn value(&mut self, value: u8) {
        let made = format!(in self.alloc; "{value:02x}").ok();
        self.say_made(made);
    }

    /// Says the name of something.
    pub fn name<D: fmt::Debug + Copy>(&mut self, item: D) {
        let made = format!(in self.alloc; "{item:?}").ok();
        self.say_made(made);
    }

    /// Says a message.
    pub fn message(&mut self, message: &Message) {
        let made = format!(in self.alloc; "{}", Bytes(message)).ok();
        self.say_made(made);
    }

    /// Says whether something is so.
    pub fn said(&mut self, so: bool) {
        self.say(if so { "yes" } else { "no" });
    }

    /// Says that a call isn't written as calls are, or can't be made.
    pub fn unread(&mut self) {
        self.say("?");
    }

    /// Says nothing of a call that could be made.
    pub fn made(&mut self, made: Option<()>) {
        if made.is_none() {
            self.unread();
        }
    }

    /// Says whether something is so, where the call could be made.
    pub fn asked(&mut self, so: Option<bool>) {
        match so {
            Some(so) => self.said(so),
            None => self.unread(),
        }
    }

    /// Says how often something was done, where the call could be made.
    pub fn counted(&mut self, count: Option<u32>) {
        match count {
            Some(count) => self.number(count),
            None => self.unread(),
        }
    }

    /// Says that something is done, or why it isn't, where the call could be made.
    pub fn done<D: fmt::Debug + Copy>(&mut self, done: Option<Result<(), D>>) {
        match done {
            Some(Ok(())) => self.say("ok"),
            Some(Err(fault)) => self.name(fault),
            None => self.unread(),
        }
    }

    /// Says how many, or why none, where the call could be made.
    pub fn count<D: fmt::Debug + Copy>(&mut self, count: Option<Result<u32, D>>) {
        match count {
            Some(Ok(count)) => self.number(count),
            Some(Err(fault)) => self.name(fault),
            None => self.unread(),
        }
    }
}
