//! [`PlanQuestion`]: what is asked of each plan that stands in a file.

use super::sweep_words::SweepWords;

/// What is asked of each plan that stands in a file (this project's own rule).
#[derive(Clone, Copy, Debug)]
pub enum PlanQuestion {
    /// `run`: the report of its run.
    Report {
        /// With `--threads`: each driver stands in a thread of its own, otherwise all stand in one.
        threads: bool,
    },
    /// `check`: its first mistake, or what its run left out.
    Check {
        /// With `--strict`: what the run left out is no fine answer.
        strict: bool,
    },
    /// `wave`: the waveform of its run.
    Wave {
        /// As for `run`.
        threads: bool,
    },
    /// `trace`: what happened in its run, event by event.
    Trace {
        /// As for `run`.
        threads: bool,
    },
    /// `frames`: the bits of each field of the frames in its run.
    Frames {
        /// With `--bits`: those of each byte of data.
        bits: bool,
        /// As for `run`.
        threads: bool,
    },
    /// `picture FROM TO`: the picture of its run.
    Picture {
        /// The first bit that is drawn, counted from 0, at most 9,999,999.
        first: u32,
        /// The last bit that is drawn, at most 9,999,999; without one that of the run.
        last: Option<u32>,
        /// With `--svg`: as a drawing in SVG, otherwise in characters.
        svg: bool,
        /// As for `run`.
        threads: bool,
        /// With `--yes`: more levels than a drawing has unasked are meant.
        meant: bool,
    },
    /// `candump`: what each node received in its run.
    Candump {
        /// With `--errors`: error frames too.
        errors: bool,
        /// As for `run`.
        threads: bool,
    },
    /// `sweep`: what came of each single bit error in its run.
    Sweep(SweepWords),
    /// `sweep --plan K B`: the plan with one strike more.
    StruckPlan {
        /// The node that is struck, counted from 0, at most 9,999,999.
        node: u32,
        /// The bit that is struck, counted from 0, at most 9,999,999.
        bit: u32,
    },
    /// `registers B`: what the registers of each node read as after a bit of its run.
    Registers {
        /// The bit, counted from 0, at most 9,999,999: the last one that is run. Without it all are.
        bit: Option<u32>,
    },
    /// `plan`: the plan, as it is written.
    Plan,
}
