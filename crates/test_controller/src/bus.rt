//! A bus and its typed drivers: [`bench`] says which file has which calls.

mod bench;
mod bus_start;
mod buses;
mod drivers;
mod hand;
mod late;
mod lawless_calls;
mod lawless_ends;
mod left;
mod logs;
mod many;
mod places;
mod rig;
mod row_answers;
mod scripts;
mod wired_bus;
mod words;

use bench::Bench;
use std::alloc::Global;
use std::io;

/// What the calls of a row answer, each answer behind a blank.
pub fn answered(alloc: Global, row: &str) -> io::Result<String> {
    let mut bench = Bench::new(alloc);
    for call in row.split("; ") {
        let words = call.split(' ').collect::<Vec<&str>>(alloc)?;
        bench.does(words.as_slice());
    }
    Ok(bench.render()?)
}
