//! [`Task`]: what the program is asked to do.

use super::expected_words::ExpectedWords;
use super::file_words::FileWords;
use super::sweep_words::SweepWords;
use arrayvec::ArrayVec;

/// How many messages `arbitrate` takes at most: a bus has one to eight controllers (this project's own rule).
pub const MOST_MESSAGES: usize = 8;

/// What the program is asked to do. The texts are those of the words that were parsed, not yet judged (this
/// project's own rule).
#[derive(Drop)]
pub enum Task<'a> {
    /// `encode MESSAGE`: the levels that a transmitter of this message's frame sends.
    Encode(&'a str),
    /// `decode LINE`: the message of the frame whose acknowledged line this is.
    Decode(&'a str),
    /// `filter MODE ACR AMR MESSAGE`: whether an acceptance filter passes this message's frame.
    Filter {
        /// MODE is `single`, otherwise it is `dual`.
        single: bool,
        /// The acceptance code registers.
        acr: &'a str,
        /// The acceptance mask registers.
        amr: &'a str,
        /// The message.
        message: &'a str,
    },
    /// `arbitrate MESSAGE..`: what becomes of these one to eight messages' frames if their transmitters start together.
    Arbitrate(ArrayVec<&'a str, MOST_MESSAGES>),
    /// `message TEXT`: this message in can-utils' notation, or the message of this notation.
    Message(&'a str),
    /// `run`: the report of the run of the plan on the input.
    Run {
        /// With `--threads`: each driver stands in a thread of its own, otherwise all stand in one.
        threads: bool,
    },
    /// `wave`: the waveform of the run of the plan on the input.
    Wave {
        /// As for `run`.
        threads: bool,
    },
    /// `trace`: what happened in the run of the plan on the input, event by event.
    Trace {
        /// As for `run`.
        threads: bool,
    },
    /// `frames`: the bits of each field of the frames in the run of the plan on the input.
    Frames {
        /// With `--bits`: those of each byte of data.
        bits: bool,
        /// As for `run`.
        threads: bool,
    },
    /// `picture FROM TO`: the picture of the run of the plan on the input.
    Picture {
        /// The first bit that is drawn, counted from 0, at most 9,999,999.
        first: u32,
        /// The last bit that is drawn, at most 9,999,999; without one that of the run.
        last: Option<u32>,
        /// With `--svg`: as a drawing in SVG, otherwise in characters.
        svg: bool,
        /// As for `run`.
        threads: bool,
        /// With `--yes`: more levels than a drawing has unasked are meant.
        meant: bool,
    },
    /// `candump`: what each node received in the run of the plan on the input.
    Candump {
        /// With `--errors`: error frames too.
        errors: bool,
        /// As for `run`.
        threads: bool,
    },
    /// `check`: the first mistake in the plan on the input, or what its run left out.
    Check {
        /// With `--strict`: what the run left out is no fine answer.
        strict: bool,
    },
    /// `sweep`: what came of each single bit error in the run of the plan on the input.
    Sweep(SweepWords),
    /// `sweep --plan K B`: the plan on the input with one strike more.
    StruckPlan {
        /// The node that is struck, counted from 0, at most 9,999,999.
        node: u32,
        /// The bit that is struck, counted from 0, at most 9,999,999.
        bit: u32,
    },
    /// `registers B`: what the registers of each node read as after a bit of the run of the plan on the input.
    Registers {
        /// The bit, counted from 0, at most 9,999,999: the last one that is run. Without it all are.
        bit: Option<u32>,
    },
    /// `plan`: the plan on the input, as it is written.
    Plan,
    /// `run --expect FILE`: whether the report of a run is the one in this file.
    Expected(ExpectedWords<'a>),
    /// `run FILE..`, `check FILE..` and their like: the same of each plan that stands in a file.
    Files(FileWords<'a>),
    /// `live`: a session that is driven by the lines of the input.
    Live,
}
