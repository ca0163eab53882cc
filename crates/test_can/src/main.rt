//! Frames, lines and nodes row by row: each line of the input is calls of the crates below the controller, and what
//! they answer is printed behind it.
//!
//! A line that begins with `== ` is a title of the rows below it. In a row `; ` stands between calls, and messages are
//! hexadecimal digits; [`bench`] says which file has which calls. The answers that are wanted stand in the file
//! `stdout`, and are worked by hand from the rules of CAN and from the data sheet; where lists are generated, two ways
//! have to agree.
#![tactic(auto)]

mod acts;
mod agreement;
mod bench;
mod bits;
mod confinement;
mod contention;
mod events;
mod frames;
mod generation;
mod hexadecimal;
mod levels;
mod lines;
mod node;
mod notation;
mod plain;
mod quick;
mod random;
mod row_answers;
mod sets;
mod shown;
mod streaming;
mod stuffing;
mod wire;
mod words;

use bench::Bench;
use std::alloc::Global;
use std::io;
use std::process::ExitCode;
use test_rows::{GivenLines, Rows, answer_rows};

/// What calls of the crates below the controller answer.
struct Calls;

impl Rows for Calls {
    /// What the calls of a row answer, each answer behind a blank.
    fn answered(&self, alloc: Global, _given: &GivenLines, row: &str) -> io::Result<String> {
        let mut bench = Bench::new(alloc);
        for call in row.split("; ") {
            bench.does(call);
        }
        Ok(bench.render()?)
    }
}

/// Answers the exit status: 0 for done, 1 where memory was refused or a read or a write failed.
fn main(rt: HostRuntime) -> ExitCode {
    answer_rows(&rt, " ->", &Calls)
}
