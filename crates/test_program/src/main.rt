//! The texts of the product row by row: each line of the input is words of the program or a plan, and what comes of it
//! is printed behind the row or below it.
//!
//! A line that begins with `## ` names what is made of the rows below it: `program`, what the program answers to words
//! ([`program`]), or one of the texts that are made of a plan ([`plans`]). One that begins with `== ` is the title of
//! the rows below it, one that begins with `-- ` the form of their documents, and one that begins with `++ ` gives them
//! a first and a last number; `test_rows` says what document a row is.
//!
//! The answers that are wanted stand in the file `stdout`, and are worked by hand from the standard, the data sheet,
//! the rules of the bus, the format of plans and those of the texts. The rows of the file `refused` are tried with
//! refused memory.
#![tactic(auto)]

mod plans;
mod program;

use std::alloc::Global;
use std::io;
use std::process::ExitCode;
use std::sync::Wait;
use std::thread::Threads;
use test_rows::{GivenLines, Rows, answer_rows};

/// What comes of words and of plans, with a handle for the program's threads.
#[derive(Drop)]
struct ProductRows<'a, T> {
    rt: &'a T,
}

impl<T: Threads + Wait + Sync> Rows for ProductRows<'_, T> {
    /// What comes of a row; nothing where no line above it names what.
    fn answered(&self, alloc: Global, given: &GivenLines, row: &str) -> io::Result<String> {
        match given.kind() {
            "program" => program::answered(self.rt, alloc, given, row),
            kind => plans::answered(alloc, kind, given, row),
        }
    }
}

/// Answers the exit status: 0 for done, 1 where memory was refused or a read or a write failed.
fn main(rt: HostRuntime) -> ExitCode {
    answer_rows(&rt, "", &ProductRows { rt: &rt })
}
