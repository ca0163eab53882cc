//! Sessions: a row is calls of one session, with the report of its log and the document of its plan below it where they
//! are asked for.
//!
//! [`bench`], [`calls`], [`addresses`], [`many`] and [`ended`] say what each call is. Bytes are hexadecimal, and
//! nodes, bits and counts decimal. The reports that are wanted are worked by hand from their format.

mod addresses;
mod answer;
mod bench;
mod calls;
mod many;
mod receiving;
mod session_ends;
mod struck;

use bench::Bench;
use std::alloc::Global;
use std::io;

/// What the calls of a row answer, each behind a blank.
pub fn answered(alloc: Global, row: &str) -> io::Result<String> {
    let mut text = String::new(alloc);
    let mut bench = Bench::new(alloc);
    for call in row.split("; ") {
        let words = call.split(' ').collect::<Vec<&str>>(alloc)?;
        bench.does(&mut text, words.as_slice())?;
    }
    Ok(text)
}
