//! `registers`: what the registers of each node read as after a bit of the run of a plan.

ghost use Rattle.std.specs.Prelude.{IfOk, IfErr, Some};
ghost use Rattle.sja_program.specs.PlanTexts.{IsTextFor, RefusesTextFor};
ghost use Rattle.sja_program.specs.Registers.{AreToldOf, IsTold, RefusesRegisters};
ghost use Rattle.sja_program.specs.Run.{IsOfPlan};
ghost use Rattle.sja_program.specs.Sweep.{RefusesOfPlan};
ghost use Rattle.sja_program.specs.Denials.{Denies, DeniesOf};
ghost use Rattle.sja_program.specs.PlanRefusals.{RefusesPlan};

use super::input::plan_of_input;
use super::run_plan::plan_in;
use super::unanswered::Unanswered;
use can_frame::OutOfMemory;
use sja_plan::Plan;
use sja_serial::run_registers;
use std::alloc::Global;
use std::io::Read;
use text_codec::{CommandRefusal, SweepRefusal, registers_told};

/// What they read as after this bit of the run of the plan that the bytes of the input are.
#[tactic(auto, using(crate::proofs::Denied::refusals))]
pub(crate) fn registers<R: Read>(
    alloc: Global,
    bit: Option<u32>,
    input: &mut R,
) -> Result<Vec<u8>, Unanswered>
    ensures ok { IfOk result (λ text.
        IsOfPlan (IsTold bit) (R.remaining input.old) (R.remaining input.new) text.items) }
    ensures err { IfErr result
        (Denies (RefusesOfPlan (RefusesRegisters bit)) (R.remaining input.old) (R.remaining input.new)) }
{
    let mut plan = plan_of_input(alloc, input)?;
    let text = render(alloc, bit, &mut plan)?;
    Ok(text)
}

/// The same of the plan that these bytes are.
#[tactic(auto, using(crate::proofs::Denied::of_text))]
pub fn registers_in(alloc: Global, bit: Option<u32>, bytes: &[u8]) -> Result<Vec<u8>, Unanswered>
    ensures ok { IfOk result (λ text. IsTextFor (IsTold bit) bytes.now text.items) }
    ensures err { IfErr result (DeniesOf (RefusesTextFor (RefusesRegisters bit) bytes.now) bytes.now) }
{
    let mut plan = plan_in(alloc, bytes)?;
    let text = render(alloc, bit, &mut plan)?;
    Ok(text)
}

/// The same of this plan.
fn render(alloc: Global, bit: Option<u32>, plan: &mut Plan) -> Result<Vec<u8>, CommandRefusal>
    ensures ok { IfOk result (λ text. IsTold bit plan.old text.items) }
    ensures err { IfErr result (RefusesPlan (RefusesRegisters bit) plan.old) }
{
    match bit {
        Some(bit) => told_after(alloc, bit, plan),
        None => Ok(told_of(alloc, plan)?),
    }
}

/// What they read as after this bit of the run of this plan, which has no bit after that one then.
///
/// Errors: [`SweepRefusal::NoBit`] where the plan hasn't the bit. Memory may be refused.
fn told_after(alloc: Global, bit: u32, plan: &mut Plan) -> Result<Vec<u8>, CommandRefusal>
    ensures ok { IfOk result (λ text. IsTold (Some bit) plan.old text.items) }
    ensures err { IfErr result (RefusesPlan (RefusesRegisters (Some bit)) plan.old) }
{
    let bits = plan.bits();
    if bit >= bits {
        return Err(CommandRefusal::Sweep(SweepRefusal::NoBit(bits)));
    }
    plan.end_after(bit);
    let text = told_of(alloc, plan)?;
    Ok(text)
}

/// What they read as at the end of the run of this plan.
///
/// Error: [`OutOfMemory`] where memory was refused.
fn told_of(alloc: Global, plan: &Plan) -> Result<Vec<u8>, OutOfMemory>
    ensures { IfOk result (λ text. AreToldOf plan.now text.items) }
{
    let rows = run_registers(alloc, plan)?;
    let text = registers_told(alloc, rows.as_slice())?;
    Ok(text)
}
