//! What a line asks a session for.

use sja_plan::Place;
use sja_steps::Step;

/// What a line asks a session for (this project's own rule). Nodes and bits count from 0.
#[derive(Drop)]
pub enum LiveCommand {
    /// A step of a node: `step K STEP`.
    Step(u8, Step),
    /// What an address of a node reads as: `read K A`.
    Read(u8, u8),
    /// A byte written to an address of a node: `write K A V`.
    Write(u8, u8, u8),
    /// So many bits, or up to the first one in which an interrupt line rises: `run N`.
    Run(u32),
    /// Bits until every controller is at rest: `rest`.
    Rest,
    /// Bits up to a place of a frame at a node, so many at most: `to K PLACE N`.
    To(u8, Place, u32),
    /// At which place of a frame a node is: `place K`.
    PlaceOf(u8),
    /// Which interrupt lines are active: `line`.
    Line,
    /// A node sees the other level in a bit: `strike K B`.
    Strike(u8, u64),
    /// What the last step of a node answered: `answer K`.
    Answer(u8),
    /// How many bits were run: `bits`.
    Bits,
    /// The plan so far: `plan`.
    Plan,
    /// The end of the talk: `end`.
    End,
}
