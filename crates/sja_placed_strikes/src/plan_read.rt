//! [`plan_of`]: the plan of a document, with each strike by place at its bit.

ghost use Rattle.std.specs.Prelude.{IfOk, IfErr};
ghost use Rattle.sja_placed_strikes.specs.PlanRead.{IsRunPlan, IsReadFault};

use super::read_fault::ReadFault;
use super::resolving::resolved;
use sja_plan::Plan;
use sja_plan_reading::read_placed_plan;
use std::alloc::Global;

/// The plan that these bytes are, with each of its strikes by place struck at its bit. Where it has none, nothing is
/// run.
///
/// Errors, the first that comes: those of [`read_placed_plan`], and those of [`resolved`].
pub fn plan_of(alloc: Global, bytes: &[u8]) -> Result<Plan, ReadFault>
    ensures ok { IfOk result (IsRunPlan bytes.now) }
    ensures err { IfErr result (IsReadFault bytes.now) }
{
    let read = read_placed_plan(alloc, bytes)?;
    Ok(resolved(alloc, read.plan, read.placed.as_slice())?)
}
