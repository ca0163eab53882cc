//! What comes of a try of a step that ends no activation.

ghost use Rattle.std.specs.Prelude.{◌≡◌};
ghost use Rattle.sja_steps.specs.declared.step_answer.StepAnswer.TheVariants.{Done, Refused};
ghost use Rattle.sja_driver.specs.declared.attempt.Attempt.TheVariants.{Answered};

use can_frame::Message;
use sja_steps::{Refusal, StepAnswer};

/// What came of a try of a step that ended no activation. A stop that ended one hands out its ledger instead, which is
/// large and is moved there alone.
#[derive(Debug, Drop)]
pub(crate) enum Attempt {
    /// The step isn't done: it is to be tried again.
    Unmet,
    /// The step is done with this answer.
    Answered(StepAnswer),
    /// The step is done: it released this message.
    Released(Message),
}

/// A step that is refused.
pub(crate) fn refused(refusal: Refusal) -> Attempt
    ensures { result ≡ Answered (Refused refusal) }
{
    Attempt::Answered(StepAnswer::Refused(refusal))
}

/// A step that is done and tells nothing more.
pub(crate) fn passed() -> Attempt
    ensures { result ≡ Answered Done }
{
    Attempt::Answered(StepAnswer::Done)
}
