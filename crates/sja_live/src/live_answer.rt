//! What a line is answered.

use super::exhausted::Exhausted;
use super::line_fault::LineFault;
use sja_plan::Place;
use sja_steps::StepAnswer;

/// What a line is answered (this project's own rule).
#[derive(Drop)]
pub enum LiveAnswer {
    /// What a step answers, or an access: a read the value, and a write that it is done.
    Told(StepAnswer),
    /// The step has to wait: `wait`.
    Waits,
    /// So many bits were run: `ran N`.
    Ran(u32),
    /// So many bits were run, and in the last of them an interrupt line rose. Behind it the lines that are active, bit
    /// K for node K: `ran N line LL`.
    Rose(u32, u8),
    /// So many bits were run, and fewer were left than were asked for, or what was waited for didn't come: `ran N
    /// spent`.
    Spent(u32),
    /// The interrupt lines that are active, bit K for node K: `line LL`.
    Lines(u8),
    /// So many bits were run so far: `bits N`.
    Bits(u64),
    /// The node's next bit is at this place of a frame: `place PLACE`.
    At(Place),
    /// No step of the node is done, or it is at no place of a frame: `nothing`.
    Nothing,
    /// The plan so far, as a document.
    PlanSoFar(String),
    /// The session is without an end, and has no plan: `no PLAN`.
    NoPlan,
    /// The line asks for nothing: `no NODE` and its like.
    Mistaken(LineFault),
    /// The bit isn't one that is still to run: `no BIT`.
    NoBit,
    /// Something is used up: `full TURNS` and its like.
    Full(Exhausted),
    /// The line has more than 64 bytes: `long`.
    Long,
}
