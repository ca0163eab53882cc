//! What is said of a plan, as text.

use sja_check::{hints, mistake};
use sja_placed_strikes::{ReadFault, plan_of};
use sja_plan_reading::PlanFault;
use sja_serial::run_serial;
use std::alloc::{AllocError, Global};
use std::io;
use test_rows::marked;

/// The name of the plan's fault and the words of its mistake, or how its run ended and the hints of that: each line
/// behind `> `.
///
/// Errors: memory was refused, to what is tested too.
pub(crate) fn said(alloc: Global, bytes: &[u8]) -> io::Result<String> {
    let (mut text, said) = match plan_of(alloc, bytes) {
        Ok(plan) => {
            let log = run_serial(alloc, &plan).or(Err(AllocError))?;
            let (bits, end) = (log.bits(), log.end());
            let head = format!(in alloc; "bits {bits} end {end}\n")?;
            let said = hints(alloc, bytes, &plan, &log).or(Err(AllocError))?;
            (head, said)
        }
        Err(ReadFault::Plan(PlanFault::Memory) | ReadFault::Place(_)) => {
            return Err(AllocError.into());
        }
        Err(ReadFault::Plan(fault)) => {
            let head = format!(in alloc; "{fault:?}\n")?;
            let said = mistake(alloc, bytes, fault).or(Err(AllocError))?;
            (head, said)
        }
    };
    text.push_str(said.as_str())?;
    Ok(marked(alloc, text.as_str())?)
}
