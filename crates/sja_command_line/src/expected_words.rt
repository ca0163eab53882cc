//! [`ExpectedWords`]: what words ask of a plan whose report is known.

/// What words ask of a plan whose report is known (this project's own rule).
#[derive(Clone, Copy, Debug)]
pub struct ExpectedWords<'a> {
    /// With `--threads`: each driver stands in a thread of its own, otherwise all stand in one.
    pub threads: bool,
    /// The name of the file with the plan; `-` is the input.
    pub plan: &'a str,
    /// The name of the file with its report.
    pub report: &'a str,
}
