//! What is said of steps.

ghost use Rattle.std.specs.Prelude.{◌≡◌, ◌++◌, string_bytes, slice_get, OnOk, IfOk};
ghost use Rattle.std.specs.Option.{option_copied};
ghost use Rattle.std.specs.Str.{bytes_eq};
ghost use Rattle.sja_sweep.specs.Steps.{step_words, answer_text, reads_ecc, step_item, step_items};

use sja_steps::{Step, StepRecord};
use std::alloc::{AllocError, Global};
use std::fmt::Write;
use text_report::put_answer;

/// The address of ECC.
const ECC: u8 = 12;

/// The steps of a node that aren't done any more, or that answer otherwise; other answers to reads of ECC in the script
/// are left out.
pub(crate) fn put_steps(
    alloc: Global,
    text: &mut String,
    script: &[Step],
    node: usize,
    without: &[StepRecord],
    now: &[StepRecord],
) -> Result<(), AllocError>
    ensures { OnOk result (string_bytes text.new ≡ string_bytes text.old
        ++ step_items script.now node without.now now.now) }
{
    for place in 0..without.len().max(now.len()) {
        let (before, after) = (done_at(without, place), done_at(now, place));
        let out = step_at(script, place);
        put_step(alloc, text, out, node, place, before, after)?;
    }
    Ok(())
}

/// The step done at a place; none past the end.
fn done_at(done: &[StepRecord], place: usize) -> Option<&StepRecord>
    ensures { option_copied result ≡ slice_get done.now place }
{
    done.get(place)
}

/// The step of a script at a place; none past the end.
fn step_at(script: &[Step], place: usize) -> Option<&Step>
    ensures { option_copied result ≡ slice_get script.now place }
{
    script.get(place)
}

/// A step, if it isn't done any more, or answers otherwise, unless it is left out as a read of ECC.
fn put_step(
    alloc: Global,
    text: &mut String,
    out: Option<&Step>,
    node: usize,
    place: usize,
    without: Option<&StepRecord>,
    now: Option<&StepRecord>,
) -> Result<(), AllocError>
    ensures { OnOk result (string_bytes text.new ≡ string_bytes text.old
        ++ step_item (option_copied out.entry) node place (option_copied without.entry) (option_copied now.entry)) }
{
    match (without, now) {
        (None, None) => Ok(()),
        (Some(_), None) => {
            put_step_words(text, node, place)?;
            text.push_str(" not done")
        }
        (None, Some(now)) => put_answered(text, node, place, now),
        (Some(without), Some(now)) => {
            if same_answer(alloc, without, now)? || reads_ecc(out) {
                return Ok(());
            }
            put_answered(text, node, place, now)
        }
    }
}

/// Whether a step reads ECC.
fn reads_ecc(step: Option<&Step>) -> bool
    ensures { result ≡ reads_ecc (option_copied step.entry) }
{
    match step {
        Some(Step::Read(address)) => *address == ECC,
        _ => false,
    }
}

/// A step with its answer.
fn put_answered(
    text: &mut String,
    node: usize,
    place: usize,
    done: &StepRecord,
) -> Result<(), AllocError>
    ensures { OnOk result (string_bytes text.new ≡ string_bytes text.old
        ++ (step_words node place ++ answer_text done.now)) }
{
    put_step_words(text, node, place)?;
    put_answer(text, &done.answer)
}

/// A step of a node.
fn put_step_words(text: &mut String, node: usize, place: usize) -> Result<(), AllocError>
    ensures { OnOk result (string_bytes text.new ≡ string_bytes text.old ++ step_words node place) }
{
    let number = place as u128 + 1;
    write!(text, "; node {node} step {number}")
}

/// Whether two steps answer the same words.
fn same_answer(alloc: Global, first: &StepRecord, second: &StepRecord) -> Result<bool, AllocError>
    ensures { IfOk result (λ same. same ≡ bytes_eq (answer_text first.now) (answer_text second.now)) }
{
    let mut one = String::new(alloc);
    put_answer(&mut one, &first.answer)?;
    let mut other = String::new(alloc);
    put_answer(&mut other, &second.answer)?;
    Ok(one.as_bytes() == other.as_bytes())
}
