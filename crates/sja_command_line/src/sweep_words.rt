//! [`SweepWords`]: what the words of `sweep` ask for.

/// The last node that a plan may have, counted from 0 (this project's own rule).
pub(crate) const LAST_NODE: u32 = 7;

/// The greatest number that the text of a strike may have (this project's own rule).
pub(crate) const GREATEST_NUMBER: u32 = 9_999_999;

/// In how many threads a sweep is made at most (this project's own rule).
pub(crate) const MOST_JOBS: u32 = 64;

/// What the words of `sweep` ask for (this project's own rule).
#[derive(Clone, Copy, Debug, PartialEq, Eq)]
pub struct SweepWords {
    /// `--only K`: the one node that is struck, 0 to 7; each node in turn where there is none.
    pub node: Option<u8>,
    /// `--from B`: the first bit that is struck, at most 9,999,999; 0 where it isn't said.
    pub first: u32,
    /// `--to B`: the last bit that is struck, at most 9,999,999; 4,294,967,295 where it isn't said.
    pub last: u32,
    /// `--pairs D`: two bits are struck in each run, which are at most so many bits apart, at most 9,999,999; one bit
    /// where it isn't said.
    pub pairs: Option<u32>,
    /// `--changed`: only lines with another outcome are told.
    pub changed: bool,
    /// `--twice`: only lines with a message that was got more often are told, or another one that is asked for.
    pub twice: bool,
    /// `--lost`: the same of a message that was got less often.
    pub lost: bool,
    /// `--stuck`: the same of a driver that did fewer steps.
    pub stuck: bool,
    /// `--rows`: a row for each run is told, and no line.
    pub rows: bool,
    /// `--yes`: more runs or bits than the limits of a sweep are meant.
    pub meant: bool,
    /// `--jobs N`: in so many threads, 1 to 64; in one where it isn't said. The text is the same for each number.
    pub jobs: u32,
}
