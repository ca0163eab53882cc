//! [`PlanCheck`]: what `check` says of a plan.

/// What `check` says of the plan on the input (this project's own rule).
#[derive(Drop)]
pub enum PlanCheck {
    /// It is a plan: a line for each thing that its run left out.
    Hints(Vec<u8>),
    /// It is none: the line that `run` has for its first fault, and one line or two that explain it.
    Mistake(Vec<u8>),
}
