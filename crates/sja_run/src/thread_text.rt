//! What is written of a run in threads.

ghost use Rattle.std.specs.Prelude.{◌≡◌, IfOk, IfErr, true, vec_len};
ghost use Rattle.sja_program.specs.Denials.{Denies};
ghost use Rattle.sja_program.specs.RunRefusals.{RefusesRunOf};
ghost use Rattle.sja_program.specs.Run.{IsOfPlan, RefusesText};
ghost use Rattle.sja_program.specs.RunText.{IsTextOfRun};

use super::tries::Tries;
use sja_plan::Plan;
use sja_program::{RunText, Unanswered, plan_of_input, text_of};
use sja_threads::run_threads;
use std::alloc::{AllocError, Global};
use std::io::Read;
use std::sync::Wait;
use std::thread::Threads;
use text_codec::CommandRefusal;

/// This text of a run of the plan that the bytes of the input are, with each driver in a thread of its own.
#[tactic(auto, using(sja_program::proofs::Denied::no_threads))]
pub(crate) fn written_threads<T: Threads + Wait + Sync, R: Read>(
    rt: &T,
    alloc: Global,
    what: RunText,
    input: &mut R,
) -> Result<Vec<u8>, Unanswered>
    ensures ok { IfOk result (λ text.
        IsOfPlan (IsTextOfRun true what) (R.remaining input.old) (R.remaining input.new) text.items) }
    ensures err { IfErr result (Denies (RefusesText true what) (R.remaining input.old) (R.remaining input.new)) }
{
    let plan = plan_of_input(alloc, input)?;
    let text = written_threads_of(rt, alloc, what, &plan)?;
    Ok(text)
}

/// This text of a run of this plan, with each driver in a thread of its own.
pub(crate) fn written_threads_of<T: Threads + Wait + Sync>(
    rt: &T,
    alloc: Global,
    what: RunText,
    plan: &Plan,
) -> Result<Vec<u8>, CommandRefusal>
    ensures ok { IfOk result (λ text. IsTextOfRun true what plan.now text.items) }
    ensures err { IfErr result (RefusesRunOf true what plan.now) }
{
    let gates = gates_of(alloc, plan.nodes())?;
    let log = run_threads(rt, alloc, plan, gates)?;
    let text = text_of(alloc, what, plan, &log)?;
    Ok(text)
}

/// A gate for each of so many nodes.
fn gates_of(alloc: Global, nodes: usize) -> Result<Vec<Tries>, AllocError>
    ensures { IfOk result (λ gates. vec_len gates ≡ nodes) }
{
    let mut gates = Vec::with_capacity(alloc, nodes)?;
    for _ in 0..nodes {
        gates.push_reserved(Tries);
    }
    Ok(gates)
}
