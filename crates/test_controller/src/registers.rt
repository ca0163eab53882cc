//! The registers of a controller: a row is calls of a port.
//!
//! Numbers are hexadecimal; [`call`] says what each call is, and `test_words` how a bit of the bus is written.

mod answer;
mod bench;
mod call;
mod controller;

use bench::Bench;
use std::alloc::Global;
use std::io;

/// What the calls of a row answer, each behind a blank.
pub fn answered(alloc: Global, row: &str) -> io::Result<String> {
    let mut bench = Bench::new(alloc);
    for call in row.split("; ") {
        let words = call.split(' ').collect::<Vec<&str>>(alloc)?;
        bench.does(words.as_slice())?;
    }
    Ok(bench.render())
}
