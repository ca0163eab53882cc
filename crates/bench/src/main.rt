//! Figures to be timed from outside: `bench FIGURE COUNT` does a figure's work COUNT times, and prints what it did.
//!
//! FIGURE is the name of one, or `all`. The text is the same every time, and ends in a checksum of all that was told.
//! Each figure is a file of its own, with a variant in [`Figure`].
#![tactic(auto)]

mod buses;
mod contending;
mod document;
mod faults;
mod figure;
mod frame_reads;
mod hearing;
mod idle;
mod line;
mod long;
mod long_frame;
mod node;
mod plans;
mod running;
mod sending;
mod sessions;
mod shift;
mod station;
mod stream;
mod talk;
mod tally;
mod watching;
mod wire;

use figure::{FIGURES, Figure};
use std::env;
use std::process::ExitCode;

/// Answers the exit status: 0 for done, 2 where the words are no figure and no count, 1 where memory was refused, a
/// frame wasn't sent or a write failed.
fn main(rt: HostRuntime) -> ExitCode {
    let Some((name, count)) = words_of(&rt) else {
        return ExitCode::from(2);
    };
    if name.as_str() == "all" {
        return ExitCode::from(if all_are_told(&rt, count) { 0 } else { 1 });
    }
    match Figure::named(name.as_str()) {
        Some(figure) => ExitCode::from(if is_told(&rt, figure, count) { 0 } else { 1 }),
        None => ExitCode::from(2),
    }
}

/// The name of a figure and the count that the first two arguments give.
fn words_of(rt: &HostRuntime) -> Option<(String, u32)> {
    let mut args = env::args(rt).ok()?;
    let _ = args.next()?;
    let name = args.next()?;
    let count = args.next()?.as_str().parse::<u32>().ok()?;
    Some((name, count))
}

/// Does each figure's work so many times, and prints a line a figure. Whether all were done and written.
fn all_are_told(rt: &HostRuntime, count: u32) -> bool {
    for figure in FIGURES {
        if !is_told(rt, figure, count) {
            return false;
        }
    }
    true
}

/// Does a figure's work so many times, and prints its line. Whether it was done and written.
fn is_told(rt: &HostRuntime, figure: Figure, count: u32) -> bool {
    match figure.run(rt.alloc(), count) {
        Some(text) => println!(rt; "{text}").is_ok(),
        None => false,
    }
}
