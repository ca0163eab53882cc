//! `sweep --jobs`: the sweep of a plan, in several threads.

ghost use Rattle.std.specs.Prelude.{IfOk, IfErr};
ghost use Rattle.sja_program.specs.Denials.{Denies, DeniesOf};
ghost use Rattle.sja_program.specs.PlanTexts.{IsTextFor, RefusesTextFor};
ghost use Rattle.sja_program.specs.Run.{IsOfPlan};
ghost use Rattle.sja_program.specs.Sweep.{IsSwept, RefusesOfPlan, RefusesSwept};

use sja_command_line::SweepWords;
use sja_program::{Unanswered, plan_in, plan_of_input, sweep_text, sweeping_of};
use sja_sweep::sweep_jobs;
use std::alloc::Global;
use std::io::Read;
use std::thread::Threads;

/// The lines of the sweep of the plan that the bytes of the input are, or its rows. The words say in how many threads.
#[tactic(auto, using(sja_program::proofs::Denied::refusals))]
pub(crate) fn told_sweep_jobs<T: Threads + Sync, R: Read>(
    rt: &T,
    alloc: Global,
    words: SweepWords,
    input: &mut R,
) -> Result<Vec<u8>, Unanswered>
    ensures ok { IfOk result (λ text.
        IsOfPlan (IsSwept words) (R.remaining input.old) (R.remaining input.new) text.items) }
    ensures err { IfErr result
        (Denies (RefusesOfPlan (RefusesSwept words)) (R.remaining input.old) (R.remaining input.new)) }
{
    let jobs = words.jobs as usize;
    let plan = plan_of_input(alloc, input)?;
    let swept = sweep_jobs(rt, alloc, &plan, &sweeping_of(words), jobs);
    let text = sweep_text(words, swept)?;
    Ok(text.into_bytes())
}

/// The lines of the sweep of the plan that these bytes are, or its rows. The words say in how many threads.
#[tactic(auto, using(sja_program::proofs::Denied::of_text))]
pub(crate) fn swept_in<T: Threads + Sync>(
    rt: &T,
    alloc: Global,
    words: SweepWords,
    bytes: &[u8],
) -> Result<Vec<u8>, Unanswered>
    ensures ok { IfOk result (λ text. IsTextFor (IsSwept words) bytes.now text.items) }
    ensures err { IfErr result (DeniesOf (RefusesTextFor (RefusesSwept words) bytes.now) bytes.now) }
{
    let jobs = words.jobs as usize;
    let plan = plan_in(alloc, bytes)?;
    let swept = sweep_jobs(rt, alloc, &plan, &sweeping_of(words), jobs);
    let text = sweep_text(words, swept)?;
    Ok(text.into_bytes())
}
