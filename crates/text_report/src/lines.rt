//! Lines of a report.

ghost use Rattle.std.specs.Prelude.{◌≡◌, ◌<◌, ◌+◌, ◌^◌, ◌++◌, [], ◌∷◌, codes, string_bytes, OnOk};
ghost use Rattle.text_report.specs.ReportLines.{line_text, lines_text, numbered, node_line, step_line};
ghost use Rattle.text_report.specs.ReportLines.{step_lines, counts_line, message_line, message_lines};

use super::words::{put_answer, put_bytes};
use can_frame::Message;
use sja_log::NodeRun;
use sja_steps::StepRecord;
use std::alloc::AllocError;
use std::fmt::Write;

/// The line of a node.
pub(crate) fn put_node_line(
    text: &mut String,
    number: usize,
    node: &NodeRun,
) -> Result<(), AllocError>
    ensures { OnOk result (string_bytes text.new ≡ string_bytes text.old ++ line_text (node_line number node.now)) }
{
    writeln!(
        text,
        "node {number} tec {} rec {} steps {}",
        node.txerr(),
        node.rxerr(),
        node.done().len()
    )
}

/// A line for each step that was done.
#[tactic(auto, using(crate::proofs::WrittenLines::Texts::lines_both))]
pub(crate) fn put_steps(text: &mut String, done: &[StepRecord]) -> Result<(), AllocError>
    ensures { OnOk result (string_bytes text.new ≡ string_bytes text.old
        ++ lines_text (numbered step_lines 1 done.now)) }
{
    let mut number = 0usize;
    for step in done {
        number += 1;
        put_step(text, number, step)?;
    }
    Ok(())
}

/// The line of a step.
fn put_step(text: &mut String, number: usize, done: &StepRecord) -> Result<(), AllocError>
    ensures { OnOk result (string_bytes text.new ≡ string_bytes text.old ++ line_text (step_line number done.now)) }
{
    write!(text, "step {number}")?;
    put_answer(text, &done.answer)?;
    text.push('\n')?;
    Ok(())
}

/// The line of an activation.
pub(crate) fn put_counts_line(
    text: &mut String,
    number: usize,
    stored: u64,
    overrun: usize,
    free: u128,
) -> Result<(), AllocError>
    ensures { OnOk result (string_bytes text.new ≡ string_bytes text.old
        ++ line_text (counts_line number stored overrun free)) }
{
    write!(text, "activation {number} stored {stored}")?;
    writeln!(text, " overrun {overrun} free {free}")
}

/// A line for each message: what became of it, and its bytes.
pub(crate) fn put_messages(
    text: &mut String,
    word: &str,
    messages: &[Message],
) -> Result<(), AllocError>
    ensures { OnOk result (string_bytes text.new ≡ string_bytes text.old
        ++ lines_text (message_lines word.now messages.now)) }
{
    for message in messages {
        put_message(text, word, message)?;
    }
    Ok(())
}

/// The line of a message.
fn put_message(text: &mut String, word: &str, message: &Message) -> Result<(), AllocError>
    ensures { OnOk result (string_bytes text.new ≡ string_bytes text.old
        ++ line_text (message_line word.now message.now)) }
{
    text.push_str(word)?;
    put_bytes(text, message)?;
    text.push('\n')?;
    Ok(())
}
