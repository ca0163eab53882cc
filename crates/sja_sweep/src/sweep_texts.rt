//! [`SweepTexts`]: the texts of a sweep.

/// The texts of a sweep, as docs/use/SWEEP.md has them.
#[derive(Debug, Drop)]
pub struct SweepTexts {
    /// The plan as it is, a line for each run of successive bits with one outcome, and how many runs there were.
    pub text: String,
    /// A row for each run.
    pub rows: String,
}
