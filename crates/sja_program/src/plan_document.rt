//! `plan`: a plan, as it is written.

ghost use Rattle.std.specs.Prelude.{IfOk, IfErr, string_bytes};
ghost use Rattle.sja_plan_text.specs.HasTexts.{HasTexts};
ghost use Rattle.sja_plan_text.specs.Written.{IsPlanText};
ghost use Rattle.sja_program.specs.PlanDocument.{IsSpelling, IsInputSpelled, RefusesSpelling, RefusesInputSpelled};
ghost use Rattle.sja_program.specs.Denials.{Denies, DeniesOf};
ghost use Rattle.sja_program.specs.PlanRefusals.{RefusesDocument};

use super::input::read_input;
use super::run_plan::plan_in;
use super::unanswered::Unanswered;
use sja_placed_strikes::a_run_plan_has_texts;
use sja_plan::Plan;
use sja_plan_reading::PlanFault;
use sja_plan_text::{PlanTextFault, plan_text};
use std::alloc::Global;
use std::io::Read;
use text_codec::CommandRefusal;

/// The plan that the bytes of the input are, as `spelled` has it.
///
/// Errors: those of [`read_input`], and of [`spelled`].
#[tactic(auto, using(crate::proofs::PlanAnswers::PlanRefusals::no_input))]
pub(crate) fn spelled_input<R: Read>(alloc: Global, input: &mut R) -> Result<Vec<u8>, Unanswered>
    ensures ok { IfOk result (λ text.
        IsInputSpelled (R.remaining input.old) (R.remaining input.new) text.items) }
    ensures err { IfErr result (Denies RefusesInputSpelled (R.remaining input.old) (R.remaining input.new)) }
{
    let bytes = read_input(alloc, input)?;
    spelled(alloc, bytes.as_slice())
}

/// The plan that these bytes are, as it is written, with each strike by place at its bit.
///
/// Errors: those of [`plan_in`], and [`CommandRefusal::Plan`] with [`PlanFault::TooLong`] where the document would be
/// longer than one may be.
#[tactic(auto, using(crate::proofs::Denied::spelling))]
pub fn spelled(alloc: Global, bytes: &[u8]) -> Result<Vec<u8>, Unanswered>
    ensures ok { IfOk result (λ text. IsSpelling bytes.now text.items) }
    ensures err { IfErr result (DeniesOf (RefusesSpelling bytes.now) bytes.now) }
{
    let plan = plan_in(alloc, bytes)?;
    a_run_plan_has_texts();
    let text = document(alloc, &plan)?;
    Ok(text.into_bytes())
}

/// The document of a plan.
fn document(alloc: Global, plan: &Plan) -> Result<String, CommandRefusal>
    requires { HasTexts plan.now }
    ensures ok { IfOk result (λ text. IsPlanText plan.now (string_bytes text)) }
    ensures err { IfErr result (RefusesDocument plan.now) }
{
    match plan_text(alloc, plan) {
        Ok(text) => Ok(text),
        Err(PlanTextFault::TooLong) => Err(CommandRefusal::Plan(PlanFault::TooLong)),
        Err(PlanTextFault::NoMemory) => Err(CommandRefusal::OutOfMemory),
    }
}
