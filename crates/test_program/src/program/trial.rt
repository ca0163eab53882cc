//! [`Outcome`]: what the program answers to words over an input, and what it writes.

use super::fed_input::FedInput;
use super::narrow::{ALL, Narrow, Room};
use super::shelf::Shelf;
use sja_run::{Output, sja, sja_alone};
use std::alloc::Global;
use std::str;
use std::sync::Wait;
use std::thread::Threads;

/// A plan with the key `turn`, which is none.
const MISSPELT: &str = "version = 1
bits = 20
turn = []
[[node]]
steps = []
";

/// What the program answered, wrote and read.
#[derive(Drop)]
pub(crate) struct Outcome {
    /// The exit status; none where the words are left to threads, to files or to a talk.
    pub(crate) status: Option<u8>,
    /// What is on the output.
    pub(crate) written: Vec<u8>,
    /// What is on the error output.
    pub(crate) told: Vec<u8>,
    /// How many writes were refused.
    pub(crate) refused: u32,
    /// Whether a write is said to have failed.
    pub(crate) failed: bool,
}

/// The program in one thread. What it promises stays out of the proofs of its callers.
fn call(
    alloc: Global,
    words: &[String],
    input: &mut FedInput<'_>,
    out: &mut Output<Narrow>,
    err: &mut Output<Narrow>,
) -> Option<u8> {
    sja_alone(alloc, words, input, out, err).ok()
}

/// The program with threads and files. What it promises stays out of the proofs of its callers.
fn call_all<T: Threads + Wait + Sync>(
    rt: &T,
    alloc: Global,
    words: &[String],
    input: &mut FedInput<'_>,
    out: &mut Output<Narrow>,
    err: &mut Output<Narrow>,
) -> u8 {
    let shelf = Shelf {
        good: str::from_utf8(input.left).unwrap_or(""),
        bad: MISSPELT,
    };
    sja(rt, alloc, &shelf, words, input, out, err)
}

/// What the program in one thread answers to these words, its name first, over this input.
pub(crate) fn tried_alone(alloc: Global, words: &[String], input: &mut FedInput<'_>) -> Outcome {
    let mut out = Output::new(Narrow::new(alloc, ALL));
    let mut err = Output::new(Narrow::new(alloc, ALL));
    let status = call(alloc, words, input, &mut out, &mut err);
    tried_so(status, out, err)
}

/// What the program with threads and files answers to them, where its writers take so much.
pub(crate) fn tried_within<T: Threads + Wait + Sync>(
    rt: &T,
    alloc: Global,
    words: &[String],
    input: &mut FedInput<'_>,
    (out_room, err_room): (Room, Room),
) -> Outcome {
    let mut out = Output::new(Narrow::new(alloc, out_room));
    let mut err = Output::new(Narrow::new(alloc, err_room));
    let status = call_all(rt, alloc, words, input, &mut out, &mut err);
    tried_so(Some(status), out, err)
}

/// What the program with threads and files answers to them.
pub(crate) fn tried<T: Threads + Wait + Sync>(
    rt: &T,
    alloc: Global,
    words: &[String],
    input: &mut FedInput<'_>,
) -> Outcome {
    tried_within(rt, alloc, words, input, (ALL, ALL))
}

/// A status, and what the writers hold.
fn tried_so(status: Option<u8>, out: Output<Narrow>, err: Output<Narrow>) -> Outcome {
    Outcome {
        status,
        refused: out.writer.refused.saturating_add(err.writer.refused),
        failed: out.failed || err.failed,
        written: out.writer.taken,
        told: err.writer.taken,
    }
}
