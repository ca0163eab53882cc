//! `sweep`: the sweep of the plan on the input, in one thread.

ghost use Rattle.std.specs.Prelude.{◌≡◌, IfOk, IfErr, string_bytes, if◌then◌else◌};
ghost use Rattle.sja_plan.specs.Plan.{PlanValue};
ghost use Rattle.sja_sweep.specs.Sweeps.{IsSweep, IsSweepFault};
ghost use Rattle.sja_program.specs.Denials.{Denies};
ghost use Rattle.sja_program.specs.Run.{IsOfPlan};
ghost use Rattle.sja_program.specs.Sweep.{IsSwept, RefusesOfPlan, RefusesSwept, sweeping_of};
ghost use Rattle.sja_program.specs.PlanRefusals.{RefusesPlan};

use super::input::plan_of_input;
use super::unanswered::Unanswered;
use sja_command_line::SweepWords;
use sja_sweep::{Kinds, SweepFault, SweepTexts, Sweeping, sweep};
use std::alloc::Global;
use std::io::Read;
use text_codec::{CommandRefusal, SweepRefusal};

/// The lines of the sweep of the plan that the bytes of the input are, or its rows; in one thread.
#[tactic(auto, using(crate::proofs::Denied::refusals))]
pub fn told_sweep<R: Read>(
    alloc: Global,
    words: SweepWords,
    input: &mut R,
) -> Result<Vec<u8>, Unanswered>
    ensures ok { IfOk result (λ text.
        IsOfPlan (IsSwept words) (R.remaining input.old) (R.remaining input.new) text.items) }
    ensures err { IfErr result
        (Denies (RefusesOfPlan (RefusesSwept words)) (R.remaining input.old) (R.remaining input.new)) }
{
    let plan = plan_of_input(alloc, input)?;
    let text = sweep_text(words, sweep(alloc, &plan, &sweeping_of(words)))?;
    Ok(text.into_bytes())
}

/// The lines of a sweep, or its rows.
///
/// Errors: [`CommandRefusal::Sweep`] with the reason of the sweep, if it has one; [`CommandRefusal::OutOfMemory`] if
/// memory was refused.
pub fn sweep_text(
    words: SweepWords,
    swept: Result<SweepTexts, SweepFault>,
) -> Result<String, CommandRefusal>
    ensures ok { (plan : PlanValue)
        → IfOk swept (λ s. IsSweep plan (sweeping_of words) (string_bytes s.text) (string_bytes s.rows))
        → IfOk result (λ text. IsSwept words plan (string_bytes text)) }
    ensures err { (plan : PlanValue) → IfErr swept (IsSweepFault plan (sweeping_of words))
        → IfErr result (RefusesPlan (RefusesSwept words) plan) }
{
    match swept {
        Ok(swept) => Ok(text_or_rows(swept, words.rows)),
        Err(SweepFault::NoNode) => Err(CommandRefusal::Sweep(SweepRefusal::NoNode)),
        Err(SweepFault::TooMany(runs, bits)) => Err(CommandRefusal::Sweep(SweepRefusal::TooMany(
            runs, bits,
        ))),
        Err(SweepFault::StrikeCount) => Err(CommandRefusal::Sweep(SweepRefusal::StrikeCount)),
        Err(SweepFault::Run(_) | SweepFault::Memory) => Err(CommandRefusal::OutOfMemory),
    }
}

/// What is asked of a sweep by these words.
pub fn sweeping_of(words: SweepWords) -> Sweeping
    ensures { result ≡ sweeping_of words }
{
    Sweeping {
        node: words.node,
        first: words.first,
        last: words.last,
        pairs: words.pairs,
        asked: Kinds {
            changed: words.changed,
            ecc: false,
            twice: words.twice,
            lost: words.lost,
            stuck: words.stuck,
        },
        meant: words.meant,
    }
}

/// The lines of a sweep, or its rows.
fn text_or_rows(swept: SweepTexts, rows: bool) -> String
    ensures { string_bytes result ≡ (if rows then string_bytes swept.rows else string_bytes swept.text) }
{
    let SweepTexts { text, rows: each } = swept;
    if rows { each } else { text }
}
