//! Sessions at their end: the report of the log, whether a run of the plan has the same, and the plan.

use super::bench::say;
use sja_log::RunLog;
use sja_plan::Plan;
use sja_plan_text::{has_texts, plan_text};
use sja_serial::run_serial;
use sja_session::Session;
use sja_steps::Step;
use std::alloc::{AllocError, Global};
use text_report::report;

/// Ends a session, and writes `again` where the report of its log is that of a run of its plan too, but for `end
/// counts`.
///
/// `end` writes the report below the row, each line behind `> `, and the document of the plan, each line behind `| `,
/// or how many of its steps wait for the interrupt line where it has none; `end line` the first line of the report, and
/// whether there is a document; `end has released 02` whether the report has these words; and `end counts` how many
/// bits and steps of node 0 the plan, the log and the log of the run of the plan have.
pub fn ended(
    alloc: Global,
    text: &mut String,
    session: Session,
    words: &[&str],
) -> Result<(), AllocError> {
    let (plan, log) = session.finish(alloc).map_err(|_| AllocError)?;
    push_run(alloc, text, &plan, &log, words)
}

/// Runs the plan, and writes what is asked of both runs.
fn push_run(
    alloc: Global,
    text: &mut String,
    plan: &Plan,
    log: &RunLog,
    words: &[&str],
) -> Result<(), AllocError> {
    let again = run_serial(alloc, plan).map_err(|_| AllocError)?;
    match words {
        ["counts"] => push_counts(alloc, text, plan, [log, &again]),
        _ => push_end(alloc, text, plan, [log, &again], words),
    }
}

/// Writes whether both logs have the same report, and what is asked of it and of the plan.
fn push_end(
    alloc: Global,
    text: &mut String,
    plan: &Plan,
    logs: [&RunLog; 2],
    words: &[&str],
) -> Result<(), AllocError> {
    let [log, again] = logs;
    let own = report(alloc, log).map_err(|_| AllocError)?;
    if is_report_of(alloc, again, own.as_str())? {
        text.push_str(" again")?;
    } else {
        text.push_str(" not again")?;
    }
    push_asked(alloc, text, plan, own.as_str(), words)
}

/// Whether this is the report of a log.
pub fn is_report_of(alloc: Global, log: &RunLog, wanted: &str) -> Result<bool, AllocError> {
    let own = report(alloc, log).map_err(|_| AllocError)?;
    Ok(own.as_str() == wanted)
}

/// Writes what is asked of a report and of the plan.
fn push_asked(
    alloc: Global,
    text: &mut String,
    plan: &Plan,
    own: &str,
    words: &[&str],
) -> Result<(), AllocError> {
    match words {
        [] => push_whole(alloc, text, plan, own),
        ["line"] => push_line(alloc, text, plan, own),
        ["has", words @ ..] => push_has(alloc, text, own, words),
        _ => text.push_str(" ?"),
    }
}

/// Writes a report and the document of the plan.
fn push_whole(alloc: Global, text: &mut String, plan: &Plan, own: &str) -> Result<(), AllocError> {
    push_lines(text, "\n> ", own)?;
    push_document(alloc, text, plan)
}

/// Writes the first line of a report, and whether there is a document.
fn push_line(alloc: Global, text: &mut String, plan: &Plan, own: &str) -> Result<(), AllocError> {
    say(alloc, text, own.lines().next().unwrap_or(""))?;
    text.push_str(if has_texts(plan) {
        " document"
    } else {
        " no document"
    })
}

/// Writes whether a report has these words.
fn push_has(alloc: Global, text: &mut String, own: &str, words: &[&str]) -> Result<(), AllocError> {
    let has = has_words(alloc, own, words)?;
    text.push_str(if has { " has" } else { " lacks" })
}

/// Whether a text has these words, with a blank between two.
fn has_words(alloc: Global, text: &str, words: &[&str]) -> Result<bool, AllocError> {
    let mut wanted = String::new(alloc);
    for (place, word) in words.iter().enumerate() {
        if place > 0 {
            wanted.push(' ')?;
        }
        wanted.push_str(word)?;
    }
    Ok(text.contains(wanted.as_str()))
}

/// Writes the lines of a text, each behind this mark.
fn push_lines(text: &mut String, mark: &str, lines: &str) -> Result<(), AllocError> {
    for line in lines.lines() {
        text.push_str(mark)?;
        text.push_str(line)?;
    }
    Ok(())
}

/// Writes the document of a plan.
fn push_document(alloc: Global, text: &mut String, plan: &Plan) -> Result<(), AllocError> {
    if !has_texts(plan) {
        push_number(alloc, text, "\n| no document, ", waits(plan))?;
        return text.push_str(" waits for the line");
    }
    let document = plan_text(alloc, plan).map_err(|_| AllocError)?;
    push_lines(text, "\n| ", document.as_str())
}

/// How many steps of a plan wait for the interrupt line.
fn waits(plan: &Plan) -> usize {
    let mut count = 0usize;
    for node in 0..plan.nodes() {
        for step in plan.steps(node) {
            if *step == Step::Interrupt {
                count = count.saturating_add(1);
            }
        }
    }
    count
}

/// Writes how many bits and steps of node 0 a plan and its two logs have.
fn push_counts(
    alloc: Global,
    text: &mut String,
    plan: &Plan,
    logs: [&RunLog; 2],
) -> Result<(), AllocError> {
    push_count(alloc, text, " plan ", plan.bits(), steps_of(plan, 0))?;
    for log in logs {
        let steps = log.nodes().first().map_or(0, |node| node.done().len());
        push_count(alloc, text, " log ", log.bits(), steps)?;
    }
    Ok(())
}

/// Writes so many bits and steps.
fn push_count(
    alloc: Global,
    text: &mut String,
    name: &str,
    bits: u32,
    steps: usize,
) -> Result<(), AllocError> {
    push_number(alloc, text, name, bits as usize)?;
    push_number(alloc, text, " bits ", steps)?;
    text.push_str(" steps")
}

/// Writes a number behind its name.
fn push_number(
    alloc: Global,
    text: &mut String,
    name: &str,
    number: usize,
) -> Result<(), AllocError> {
    text.push_str(name)?;
    let said = format!(in alloc; "{number}")?;
    text.push_str(said.as_str())
}

/// How many steps a node of a plan has.
fn steps_of(plan: &Plan, node: usize) -> usize {
    if node < plan.nodes() {
        plan.steps(node).len()
    } else {
        0
    }
}

/// Writes what a plan has: its version, its bits, how many turns and strikes, and how many steps of each node.
pub fn push_plan(alloc: Global, text: &mut String, plan: &Plan) -> Result<(), AllocError> {
    push_number(alloc, text, " version ", usize::from(plan.version()))?;
    push_number(alloc, text, " bits ", plan.bits() as usize)?;
    push_number(alloc, text, " turns ", plan.turns().len())?;
    push_number(alloc, text, " strikes ", plan.strikes().len())?;
    text.push_str(" steps")?;
    for node in 0..plan.nodes() {
        push_number(alloc, text, " ", steps_of(plan, node))?;
    }
    Ok(())
}
