//! What is written of a run in one thread.

ghost use Rattle.std.specs.Prelude.{IfOk, IfErr, false};
ghost use Rattle.sja_program.specs.Denials.{Denies};
ghost use Rattle.sja_program.specs.RunRefusals.{RefusesRunOf};
ghost use Rattle.sja_program.specs.Run.{IsOfPlan, RefusesText};
ghost use Rattle.sja_program.specs.RunText.{IsTextOfRun};

use super::input::plan_of_input;
use super::run_text::{RunText, text_of};
use super::unanswered::Unanswered;
use sja_plan::Plan;
use sja_serial::run_serial;
use std::alloc::Global;
use std::io::Read;
use text_codec::CommandRefusal;

/// This text of a run in one thread of the plan that the bytes of the input are.
#[tactic(auto, using(crate::proofs::Denied::no_run))]
pub(crate) fn write_text<R: Read>(
    alloc: Global,
    what: RunText,
    input: &mut R,
) -> Result<Vec<u8>, Unanswered>
    ensures ok { IfOk result (λ text.
        IsOfPlan (IsTextOfRun false what) (R.remaining input.old) (R.remaining input.new) text.items) }
    ensures err { IfErr result (Denies (RefusesText false what) (R.remaining input.old) (R.remaining input.new)) }
{
    let plan = plan_of_input(alloc, input)?;
    let text = written_of(alloc, what, &plan)?;
    Ok(text)
}

/// This text of a run in one thread of this plan.
pub fn written_of(alloc: Global, what: RunText, plan: &Plan) -> Result<Vec<u8>, CommandRefusal>
    ensures ok { IfOk result (λ text. IsTextOfRun false what plan.now text.items) }
    ensures err { IfErr result (RefusesRunOf false what plan.now) }
{
    let log = run_serial(alloc, plan)?;
    let text = text_of(alloc, what, plan, &log)?;
    Ok(text)
}
