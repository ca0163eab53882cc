//! [`Groups`]: answers to numbers, those that follow one another and are alike as one.

use std::alloc::{AllocError, Global};
use std::fmt::Write;
use std::io;

/// Answers to numbers.
#[derive(Drop)]
pub(crate) struct Groups {
    text: String,
    answer: String,
    first: usize,
    last: usize,
}

impl Groups {
    /// No answers yet.
    pub(crate) fn new(alloc: Global) -> Groups {
        Groups {
            text: String::new(alloc),
            answer: String::new(alloc),
            first: 0,
            last: 0,
        }
    }

    /// Adds the answer to a number.
    pub(crate) fn add(&mut self, number: usize, answer: String) -> io::Result<()> {
        if self.answer != answer {
            self.close()?;
            self.first = number;
            self.answer = answer;
        }
        self.last = number;
        Ok(())
    }

    /// Adds the numbers that have the last answer, and that.
    fn close(&mut self) -> io::Result<()> {
        if self.answer.is_empty() {
            return Ok(());
        }
        if self.first == self.last {
            write!(self.text, "\n{}", self.first)?;
        } else {
            write!(self.text, "\n{} to {}", self.first, self.last)?;
        }
        Ok(self.text.push_str(self.answer.as_str())?)
    }

    /// All of them.
    pub(crate) fn render(mut self) -> io::Result<String> {
        self.close()?;
        Ok(self.text)
    }
}
