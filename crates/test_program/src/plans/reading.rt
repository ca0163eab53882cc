//! What reading a plan answers, as text.

use sja_plan::Plan;
use sja_plan_reading::{MOST_BYTES, PlanFault, read_plan};
use std::alloc::{AllocError, Global};
use std::{fmt, io};

/// How many items of a list are written out. Of a longer one their number is.
const MOST_ITEMS: usize = 4;

/// What reading these bytes answers behind ` -> `, and behind their number where it is the greatest or more.
///
/// Errors: memory was refused, to the reader too.
pub(crate) fn reading(alloc: Global, bytes: &[u8]) -> io::Result<String> {
    let mut text = String::from_str(alloc, " -> ")?;
    if bytes.len() >= MOST_BYTES {
        text.push_str(format!(in alloc; "{} bytes, ", bytes.len())?.as_str())?;
    }
    match read_plan(alloc, bytes) {
        Ok(plan) => push_plan(alloc, &mut text, &plan)?,
        Err(PlanFault::Memory) => return Err(AllocError.into()),
        Err(fault) => text.push_str(format!(in alloc; "{fault:?}")?.as_str())?,
    }
    Ok(text)
}

/// Writes a plan: its version, its bits, of each node its steps, its turns and its strikes.
fn push_plan(alloc: Global, text: &mut String, plan: &Plan) -> Result<(), AllocError> {
    let (version, bits) = (plan.version(), plan.bits());
    text.push_str(format!(in alloc; "version {version} bits {bits}")?.as_str())?;
    for node in 0..plan.nodes() {
        push_list(alloc, text, "steps", plan.steps(node))?;
    }
    push_list(alloc, text, "turns", plan.turns())?;
    push_list(alloc, text, "strikes", plan.strikes())
}

/// Writes a list with its name.
fn push_list<T: fmt::Debug>(
    alloc: Global,
    text: &mut String,
    name: &str,
    items: &[T],
) -> Result<(), AllocError> {
    let list = if items.len() > MOST_ITEMS {
        format!(in alloc; " {name} {}", items.len())?
    } else {
        format!(in alloc; " {name} {items:?}")?
    };
    text.push_str(list.as_str())
}
