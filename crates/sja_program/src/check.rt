//! `check`: the first mistake in a plan, or what its run left out.

ghost use Rattle.std.specs.Prelude.{IfOk, IfErr};
ghost use Rattle.sja_log.specs.Log.{RunValue};
ghost use Rattle.sja_promises.specs.Runs.{IsSerialRun};
ghost use Rattle.sja_check.specs.Lines.{AreHints};
ghost use Rattle.sja_program.specs.Replies.{IsChecked, IsSaidOf};
ghost use Rattle.sja_program.specs.Input.{RefusesInput};

use super::input::read_input;
use super::mistaken::mistaken;
use super::plan_check::PlanCheck;
use can_frame::OutOfMemory;
use sja_check::hints;
use sja_placed_strikes::plan_of;
use sja_plan::Plan;
use sja_serial::run_serial;
use std::alloc::Global;
use std::io::Read;
use text_codec::CommandRefusal;

/// What there is to be said of the plan on the input.
///
/// Errors: those of [`read_input`]; [`CommandRefusal::OutOfMemory`].
pub(crate) fn checked<R: Read>(alloc: Global, input: &mut R) -> Result<PlanCheck, CommandRefusal>
    ensures ok { IfOk result (IsChecked (R.remaining input.old) (R.remaining input.new)) }
    ensures err { IfErr result (RefusesInput (R.remaining input.old) (R.remaining input.new)) }
{
    let bytes = read_input(alloc, input)?;
    let said = said_of(alloc, bytes.as_slice())?;
    Ok(said)
}

/// What there is to be said of the plan that these bytes are. A plan is run in one thread.
///
/// Error: [`OutOfMemory`] where memory was refused.
pub fn said_of(alloc: Global, bytes: &[u8]) -> Result<PlanCheck, OutOfMemory>
    ensures { IfOk result (IsSaidOf bytes.now) }
{
    match plan_of(alloc, bytes) {
        Ok(plan) => Ok(PlanCheck::Hints(hinted(alloc, bytes, &plan)?)),
        Err(fault) => Ok(PlanCheck::Mistake(mistaken(alloc, bytes, fault)?)),
    }
}

/// A line for each thing that the run of this plan left out.
///
/// Error: [`OutOfMemory`] where memory was refused.
fn hinted(alloc: Global, bytes: &[u8], plan: &Plan) -> Result<Vec<u8>, OutOfMemory>
    ensures { IfOk result (λ text. ((log : RunValue) × IsSerialRun plan.now log) × AreHints text.items) }
{
    let Ok(log) = run_serial(alloc, plan) else {
        return Err(OutOfMemory);
    };
    let text = hints(alloc, bytes, plan, &log)?;
    Ok(text.into_bytes())
}
