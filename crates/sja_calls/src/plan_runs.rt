//! The report of a plan.

ghost use Rattle.std.specs.Prelude.{◌≡◌, IfOk, IfErr, OnErr};
ghost use Rattle.sja_calls.specs.Texts.{PutsRun, IsNoRun, no_plan};

use super::call_fault::CallFault;
use super::put_text::put_text;
use sja_placed_strikes::{PlaceFault, ReadFault, plan_of};
use sja_plan_reading::PlanFault;
use sja_serial::run_serial;
use std::alloc::Global;
use text_report::report;

/// Runs the plan that these bytes are, with each strike by place at its bit, in one thread, and puts the report of the
/// run into a text, with a NUL at its end. It gives the length without it.
///
/// Errors, and the text stays as it was: [`CallFault::NoPlan`] where the bytes are none, or a strike by place has no
/// bit; [`CallFault::NoRoom`], with the size that the report needs; [`CallFault::Memory`].
pub fn run_plan(alloc: Global, plan: &[u8], text: &mut [u8]) -> Result<usize, CallFault>
    ensures puts { IfOk result (PutsRun plan.now text.old text.new) }
    ensures err { IfErr result (IsNoRun plan.now text.old) }
    ensures kept { OnErr result (text.new ≡ text.old) }
{
    let plan = match plan_of(alloc, plan) {
        Ok(plan) => plan,
        Err(fault) => return Err(no_plan(fault)),
    };
    let Ok(log) = run_serial(alloc, &plan) else {
        return Err(CallFault::Memory);
    };
    match report(alloc, &log) {
        Ok(all) => put_text(all.as_bytes(), text),
        Err(_) => Err(CallFault::Memory),
    }
}

/// Why there is no plan to run.
fn no_plan(fault: ReadFault) -> CallFault
    ensures { result ≡ no_plan fault }
{
    match fault {
        ReadFault::Plan(PlanFault::Memory) => CallFault::Memory,
        ReadFault::Place(PlaceFault::Memory | PlaceFault::Run(_)) => CallFault::Memory,
        _ => CallFault::NoPlan,
    }
}
