//! [`RowAnswers`]: what the calls of a row have answered.

use can_frame::Message;
use std::alloc::{AllocError, Global};
use std::fmt;
use test_rows::Line;

/// What the calls of a row have answered, each answer behind a blank.
#[derive(Drop)]
pub struct RowAnswers {
    alloc: Global,
    line: Line,
    words: u32,
}

impl RowAnswers {
    /// Nothing yet.
    pub fn new(alloc: Global) -> RowAnswers {
        RowAnswers {
            alloc,
            line: Line::new(alloc),
            words: 0,
        }
    }

    /// The text of all answers, or that memory was refused.
    pub fn text(self) -> Result<String, AllocError> {
        self.line.text()
    }

    /// How many words were said.
    pub fn words(&self) -> u32 {
        self.words
    }

    /// Memory was refused.
    pub fn refuse(&mut self) {
        self.line.refuse();
    }

    /// Says a word.
    pub fn say(&mut self, word: &str) {
        self.begin();
        self.line.join(word);
    }

    /// Says a word that was made, where there was memory for it.
    fn say_made(&mut self, made: Option<String>) {
        self.begin();
        self.line.join_made(made);
    }

    /// Begins a word.
    fn begin(&mut self) {
        self.words = self.words.wrapping_add(1);
        self.line.join(" ");
    }

    /// Goes on with the word that was said last.
    pub fn join(&mut self, part: &str) {
        self.line.join(part);
    }

    /// Goes on with a number.
    pub fn join_number(&mut self, number: u32) {
        let made = format!(in self.alloc; "{number}").ok();
        self.line.join_made(made);
    }

    /// Says what is displayed so.
    pub fn show<D: fmt::Display + Copy>(&mut self, item: D) {
        let made = format!(in self.alloc; "{item}").ok();
        self.say_made(made);
    }

    /// Says an identifier in hexadecimal digits.
    pub fn show_id(&mut self, id: u32) {
        let made = format!(in self.alloc; "{id:x}").ok();
        self.say_made(made);
    }

    /// Says the name of something.
    pub fn name<D: fmt::Debug + Copy>(&mut self, item: D) {
        let made = format!(in self.alloc; "{item:?}").ok();
        self.say_made(made);
    }

    /// Says a word about a bit, behind its number.
    pub fn at(&mut self, bit: u32, word: &str) {
        let made = format!(in self.alloc; "{bit}:{word}").ok();
        self.say_made(made);
    }

    /// Goes on with the name of something.
    pub fn join_name<D: fmt::Debug + Copy>(&mut self, item: D) {
        let made = format!(in self.alloc; "{item:?}").ok();
        self.line.join_made(made);
    }

    /// Says whether something is so.
    pub fn said(&mut self, so: bool) {
        self.say(if so { "yes" } else { "no" });
    }

    /// Says a number, or that there is none.
    pub fn number(&mut self, number: Option<u32>) {
        match number {
            Some(number) => self.show(number),
            None => self.say("none"),
        }
    }

    /// Says that a call isn't written as calls are.
    pub fn unread(&mut self) {
        self.say("?");
    }

    /// Goes on with a byte, as two hexadecimal digits.
    fn join_byte(&mut self, byte: u8) {
        let made = format!(in self.alloc; "{byte:02x}").ok();
        self.line.join_made(made);
    }

    /// Goes on with bytes, as two hexadecimal digits each.
    pub fn join_bytes(&mut self, bytes: &[u8]) {
        for byte in bytes {
            self.join_byte(*byte);
        }
    }

    /// Says the bytes of a message.
    pub fn message(&mut self, message: &Message) {
        self.say("");
        self.join_bytes(message.bytes());
    }

    /// Says that nothing came, where no word was said since there were so many.
    pub fn quiet_since(&mut self, words: u32) {
        if self.words == words {
            self.say("quiet");
        }
    }
}
