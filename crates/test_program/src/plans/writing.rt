//! What writing a plan answers, as text.

use sja_plan::Plan;
use sja_plan_reading::{PlanFault, read_plan};
use sja_plan_text::{PlanTextFault, has_texts, plan_text};
use std::alloc::{AllocError, Global};
use std::io;

/// How many bytes of a document are printed at most. Of a longer one their number is.
const MOST_SHOWN: usize = 1_000;

/// What writing the plan of this document answers, behind ` -> `: whether what is written is read, and written the same
/// way again, and then its lines.
///
/// Errors: memory was refused, to the reader and the writer too.
pub(crate) fn writing(alloc: Global, document: &[u8]) -> io::Result<String> {
    let mut text = String::from_str(alloc, " -> ")?;
    text.push_str(outcome(alloc, document)?.as_str())?;
    Ok(text)
}

/// What writing the plan of this document answers.
fn outcome(alloc: Global, document: &[u8]) -> io::Result<String> {
    let first = match write_plan(alloc, document)? {
        Ok(first) => first,
        Err(fault) => return Ok(fault),
    };
    let second = match write_plan(alloc, first.as_bytes())? {
        Ok(second) => second,
        Err(fault) => return Ok(fault),
    };
    let outcome = if first == second { "same" } else { "OTHER" };
    if first.len() > MOST_SHOWN {
        return Ok(format!(in alloc; "{outcome} {} bytes", first.len())?);
    }
    shown(alloc, outcome, first.as_str())
}

/// The outcome, and the lines of the document below it.
fn shown(alloc: Global, outcome: &str, document: &str) -> io::Result<String> {
    let mut text = String::from_str(alloc, outcome)?;
    for line in document.lines() {
        text.push_str("\n|")?;
        if !line.is_empty() {
            text.push_str(" ")?;
        }
        text.push_str(line)?;
    }
    Ok(text)
}

/// The plan of this document as it is written, or why it isn't.
fn write_plan(alloc: Global, document: &[u8]) -> io::Result<Result<String, String>> {
    match read_plan(alloc, document) {
        Ok(plan) => rewritten(alloc, &plan),
        Err(PlanFault::Memory) => Err(AllocError.into()),
        Err(fault) => Ok(Err(format!(in alloc; "{fault:?}")?)),
    }
}

/// The plan as it is written, or why it isn't.
fn rewritten(alloc: Global, plan: &Plan) -> io::Result<Result<String, String>> {
    if !has_texts(plan) {
        return Ok(Err(String::from_str(alloc, "no texts")?));
    }
    match plan_text(alloc, plan) {
        Ok(text) => Ok(Ok(text)),
        Err(PlanTextFault::NoMemory) => Err(AllocError.into()),
        Err(fault) => Ok(Err(format!(in alloc; "{fault:?}")?)),
    }
}
