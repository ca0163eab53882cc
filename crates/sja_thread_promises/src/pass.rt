//! What a gate answers.

/// What a gate answers when it is asked about a try of a step (this project's own rule).
#[derive(Clone, Copy, Debug, PartialEq, Eq)]
pub enum Pass {
    /// The step is tried now.
    Go,
    /// It isn't tried now; the gate is asked again.
    Hold,
    /// The script ends here.
    Quit,
}
