//! What the first line says.

/// What the first line of a talk says, `live VERSION BITS NODES` (this project's own rule).
#[derive(Clone, Copy, Debug, PartialEq, Eq)]
pub struct Opening {
    /// By which version of the rules the session goes: 1, 2 or 3.
    pub version: u8,
    /// How many bits it has at most; in version 3 none for a session without an end.
    pub bits: u32,
    /// How many nodes it has.
    pub nodes: u8,
}
