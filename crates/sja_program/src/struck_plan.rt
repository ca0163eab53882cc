//! `sweep --plan`: the plan on the input with one strike more.

ghost use Rattle.std.specs.Prelude.{IfOk, IfErr, string_bytes};
ghost use Rattle.sja_plan_text.specs.HasTexts.{HasTexts};
ghost use Rattle.sja_plan_text.specs.Written.{IsPlanText};
ghost use Rattle.sja_program.specs.PlanTexts.{IsTextFor, RefusesTextFor};
ghost use Rattle.sja_program.specs.Run.{IsOfPlan};
ghost use Rattle.sja_program.specs.Sweep.{IsStruck, RefusesOfPlan, RefusesStruck};
ghost use Rattle.sja_program.specs.Denials.{Denies, DeniesOf};
ghost use Rattle.sja_program.specs.PlanRefusals.{IsLong, RefusesPlan};

use super::input::plan_of_input;
use super::run_plan::plan_in;
use super::unanswered::Unanswered;
use sja_placed_strikes::a_run_plan_has_texts;
use sja_plan::{Plan, StrikeRefusal};
use sja_plan_reading::GREATEST_NUMBER;
use sja_plan_text::{PlanTextFault, plan_text};
use std::alloc::Global;
use std::io::Read;
use text_codec::{CommandRefusal, SweepRefusal};

/// The plan that the bytes of the input are, with a strike more of this node in this bit, as a document.
#[tactic(auto, using(crate::proofs::Denied::refusals))]
pub(crate) fn strike<R: Read>(
    alloc: Global,
    node: u32,
    bit: u32,
    input: &mut R,
) -> Result<Vec<u8>, Unanswered>
    ensures ok { IfOk result (λ text.
        IsOfPlan (IsStruck node bit) (R.remaining input.old) (R.remaining input.new) text.items) }
    ensures err { IfErr result
        (Denies (RefusesOfPlan (RefusesStruck node bit)) (R.remaining input.old) (R.remaining input.new)) }
{
    let plan = plan_of_input(alloc, input)?;
    a_run_plan_has_texts();
    let text = struck_text(alloc, node, bit, &plan)?;
    Ok(text.into_bytes())
}

/// The same of the plan that these bytes are.
#[tactic(auto, using(crate::proofs::Denied::of_text))]
pub fn struck_in(alloc: Global, node: u32, bit: u32, bytes: &[u8]) -> Result<Vec<u8>, Unanswered>
    ensures ok { IfOk result (λ text. IsTextFor (IsStruck node bit) bytes.now text.items) }
    ensures err { IfErr result (DeniesOf (RefusesTextFor (RefusesStruck node bit) bytes.now) bytes.now) }
{
    let plan = plan_in(alloc, bytes)?;
    a_run_plan_has_texts();
    let text = struck_text(alloc, node, bit, &plan)?;
    Ok(text.into_bytes())
}

/// The document of the plan with this strike more.
///
/// Errors, the first that holds: [`SweepRefusal::NoNode`]; [`SweepRefusal::Bit`]; [`SweepRefusal::StrikeCount`];
/// [`SweepRefusal::TooLong`]. Memory may be refused at any time.
fn struck_text(alloc: Global, node: u32, bit: u32, plan: &Plan) -> Result<String, CommandRefusal>
    requires { HasTexts plan.now }
    ensures ok { IfOk result (λ text. IsStruck node bit plan.now (string_bytes text)) }
    ensures err { IfErr result (RefusesPlan (RefusesStruck node bit) plan.now) }
{
    if node as usize >= plan.nodes() {
        return Err(CommandRefusal::Sweep(SweepRefusal::NoNode));
    }
    if bit > GREATEST_NUMBER {
        return Err(CommandRefusal::Sweep(SweepRefusal::Bit));
    }
    match plan.with_strike(alloc, node as u8, bit) {
        Ok(struck) => document(alloc, &struck),
        Err(StrikeRefusal::StrikeCount) => Err(CommandRefusal::Sweep(SweepRefusal::StrikeCount)),
        Err(_) => Err(CommandRefusal::OutOfMemory),
    }
}

/// The document of a plan.
fn document(alloc: Global, plan: &Plan) -> Result<String, CommandRefusal>
    requires { HasTexts plan.now }
    ensures ok { IfOk result (λ text. IsPlanText plan.now (string_bytes text)) }
    ensures err { IfErr result (RefusesPlan IsLong plan.now) }
{
    match plan_text(alloc, plan) {
        Ok(text) => Ok(text),
        Err(PlanTextFault::TooLong) => Err(CommandRefusal::Sweep(SweepRefusal::TooLong)),
        Err(PlanTextFault::NoMemory) => Err(CommandRefusal::OutOfMemory),
    }
}
