//! [`FileWords`]: what words ask of plans in files.

use super::plan_question::PlanQuestion;

/// What words ask of plans that stand in files (this project's own rule).
#[derive(Debug, Drop)]
pub struct FileWords<'a> {
    /// What is asked of each plan.
    pub question: PlanQuestion,
    /// `--jobs N`: so many plans at one time, 1 to 64; one where it isn't said. The text is the same for each number.
    pub jobs: u32,
    /// The names of the files, in order, one at least; `-` is the input.
    pub names: Vec<&'a str>,
}
