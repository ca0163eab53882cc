//! [`ThreadTask`]: what is left to threads.

use super::run_text::RunText;
use sja_command_line::SweepWords;

/// What words ask for that is done in threads (this project's own rule).
#[derive(Clone, Copy, Debug, PartialEq, Eq)]
pub enum ThreadTask {
    /// A text of a run, `run --threads` and its like.
    Text(RunText),
    /// `sweep` with `--jobs N`, and N above 1.
    Sweep(SweepWords),
}
