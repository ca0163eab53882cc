//! [`Kind`]: what is made of the rows below a line that names it.

use super::run_text::RunText;

/// What is made of the rows below a line that names it.
#[derive(Clone, Copy)]
pub(crate) enum Kind {
    /// What reading the document answers.
    Plan,
    /// What writing the plan of the document answers.
    PlanText,
    /// The words of the plan's mistake, or the hints of its run.
    Check,
    /// A text of the plan's run.
    Run(RunText),
}

impl Kind {
    /// The kind that a line names, or none.
    pub(crate) fn named(word: &str) -> Option<Kind> {
        Some(match word {
            "plan" => Kind::Plan,
            "plan_text" => Kind::PlanText,
            "check" => Kind::Check,
            "trace" => Kind::Run(RunText::Trace),
            "frames" => Kind::Run(RunText::Frames),
            "picture" => Kind::Run(RunText::Picture),
            "drawing" => Kind::Run(RunText::Drawing),
            "candump" => Kind::Run(RunText::Candump),
            _ => return None,
        })
    }
}
