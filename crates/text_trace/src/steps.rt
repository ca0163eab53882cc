//! The lines of steps.

ghost use Rattle.std.specs.Prelude.{◌≡◌, ◌++◌, string_bytes, OnOk};
ghost use Rattle.text_trace.specs.TraceText.{step_line, ignored_said, is_due, line_where, steps_due};

use super::due::Due;
use super::names::ignored_name;
use can_frame::OutOfMemory;
use sja_steps::{Ignored, Step, StepRecord, step_text};
use std::alloc::{AllocError, Global};
use std::fmt::Write;
use text_report::put_answer;

/// The lines of those of a node's steps that are due, by what they came to.
pub(crate) fn put_steps(
    alloc: Global,
    text: &mut String,
    node: usize,
    steps: &[Step],
    done: &[StepRecord],
    due: Due,
) -> Result<(), OutOfMemory>
    ensures { OnOk result (string_bytes text.new ≡ string_bytes text.old
        ++ steps_due due.late due.bit node 1 steps.now done.now) }
{
    let mut place = 0usize;
    while place < steps.len() && place < done.len() {
        put_due(
            alloc,
            text,
            node,
            place + 1,
            &steps[place],
            &done[place],
            due,
        )?;
        place += 1;
    }
    Ok(())
}

/// The line of a step, if it is due.
pub(crate) fn put_due(
    alloc: Global,
    text: &mut String,
    node: usize,
    number: usize,
    step: &Step,
    done: &StepRecord,
    due: Due,
) -> Result<(), OutOfMemory>
    ensures { OnOk result (string_bytes text.new ≡ string_bytes text.old
        ++ line_where (is_due due.late due.bit done.now.bits) (step_line node number step.now done.now)) }
{
    if !due.has(done.bits) {
        return Ok(());
    }
    put_step(alloc, text, node, number, step, done)
}

/// The line of a step: the bits before it, its node and its number, its text and its answer, and why it was ignored.
fn put_step(
    alloc: Global,
    text: &mut String,
    node: usize,
    number: usize,
    step: &Step,
    done: &StepRecord,
) -> Result<(), OutOfMemory>
    ensures { OnOk result (string_bytes text.new ≡ string_bytes text.old
        ++ step_line node number step.now done.now) }
{
    let words = step_text(alloc, step)?;
    let bits = done.bits;
    write!(text, "bit {bits} node {node} step {number}: {words} ->")?;
    put_answer(text, &done.answer)?;
    put_ignored(text, done.answer.ignored(step))?;
    text.push('\n')?;
    Ok(())
}

/// Why the controller ignored a step, if it did.
fn put_ignored(text: &mut String, ignored: Option<Ignored>) -> Result<(), AllocError>
    ensures { OnOk result (string_bytes text.new ≡ string_bytes text.old ++ ignored_said ignored) }
{
    match ignored {
        Some(cause) => write!(text, "; ignored: {}", ignored_name(cause)),
        None => Ok(()),
    }
}
