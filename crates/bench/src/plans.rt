//! The figures of plans: a document of 65,536 bytes is read again and again.

use super::document::Document;
use sja_plan::Plan;
use sja_plan_reading::read_plan;
use std::alloc::Global;

/// Reads the document once, and once more for each hundred of the count.
pub fn run(alloc: Global, count: u32, document: Document) -> Option<String> {
    let text = document.text(alloc).ok()?;
    for _ in 0..count / 100 {
        let _read = read_plan(alloc, text.as_bytes());
    }
    let bytes = (text.len() as u64).wrapping_mul(u64::from(count / 100).wrapping_add(1));
    match read_plan(alloc, text.as_bytes()) {
        Ok(plan) => {
            let steps = steps_in(&plan);
            let turns = plan.turns().len();
            let strikes = plan.strikes().len();
            format!(in alloc; "bytes {bytes} steps {steps} turns {turns} strikes {strikes}").ok()
        }
        Err(fault) => format!(in alloc; "bytes {bytes} fault {fault}").ok(),
    }
}

/// How many steps the plan has.
fn steps_in(plan: &Plan) -> usize {
    let mut steps = 0usize;
    for node in 0..plan.nodes() {
        steps = steps.saturating_add(plan.steps(node).len());
    }
    steps
}
