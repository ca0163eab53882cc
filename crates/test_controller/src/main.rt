//! Controllers row by row, from their registers to sessions: each line of the input is calls, and what they answer is
//! printed behind it.
//!
//! A line that begins with `## ` names what the calls of the rows below it are of: a port ([`registers`]), a link or
//! its world ([`links`]), the steps of a driver ([`scripts`]), a bus and its typed drivers ([`bus`]), or a session
//! ([`sessions`]). One that begins with `== ` is the title of the rows below it. In a row `; ` stands between calls.
//! The answers that are wanted stand in the file `stdout`, and are the data sheet's, or worked by hand from the rules
//! of CAN.
#![tactic(auto)]

mod bus;
mod links;
mod registers;
mod scripts;
mod sessions;

use std::alloc::Global;
use std::io;
use std::process::ExitCode;
use test_rows::{GivenLines, Rows, answer_rows};

/// What the calls of rows answer.
struct ControllerRows;

impl Rows for ControllerRows {
    /// What the calls of a row answer, each behind a blank, where a line above it names what they are of.
    fn answered(&self, alloc: Global, given: &GivenLines, row: &str) -> io::Result<String> {
        match given.kind() {
            "port" => registers::answered(alloc, row),
            "link" => links::answered(alloc, row),
            "script" => scripts::answered(alloc, row),
            "bus" => bus::answered(alloc, row),
            "session" => sessions::answered(alloc, row),
            _ => Ok(String::from_str(alloc, " ?")?),
        }
    }
}

/// Answers the exit status: 0 for done, 1 where memory was refused or a read or a write failed.
fn main(rt: HostRuntime) -> ExitCode {
    answer_rows(&rt, " ->", &ControllerRows)
}
