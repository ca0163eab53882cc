//! The strikes of a plan, as a bus takes them.

ghost use Rattle.std.specs.Prelude.{◌≡◌, IfOk};

use can_frame::OutOfMemory;
use sja_plan::Plan;
use sja_steps::FaultScript;
use std::alloc::Global;

/// The strikes of the plan, as a bus takes them.
///
/// Error: [`OutOfMemory`] where memory was refused.
pub fn script_of(alloc: Global, plan: &Plan) -> Result<FaultScript, OutOfMemory>
    ensures { IfOk result (λ script. script ≡ plan.now.strikes) }
{
    let given = plan.strikes();
    let mut strikes = Vec::with_capacity(alloc, given.len())?;
    for strike in given {
        strikes.push_reserved(*strike);
    }
    Ok(FaultScript::of(strikes))
}
