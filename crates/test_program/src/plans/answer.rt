//! What a row answers.

use super::kind::Kind;
use super::reading::reading;
use super::row_options::RowOptions;
use super::run_text::RunText;
use super::said::said;
use super::writing::writing;
use sja_log::RunLog;
use sja_plan::Plan;
use sja_plan_reading::{PlanFault, read_plan};
use sja_serial::run_serial;
use std::alloc::{AllocError, Global};
use std::io;
use test_rows::{GivenLines, marked};

/// What a row answers where this is made of it.
pub(crate) fn answer(
    alloc: Global,
    kind: Kind,
    given: &GivenLines,
    row: &str,
) -> io::Result<String> {
    match kind {
        Kind::Plan => reading(alloc, given.document(alloc, row)?.as_slice()),
        Kind::PlanText => writing(alloc, given.document(alloc, row)?.as_slice()),
        Kind::Check => said(alloc, given.document(alloc, row)?.as_slice()),
        Kind::Run(text) => {
            let (asked, rest) = RowOptions::by(given.bits(), row);
            let bytes = given.document(alloc, rest)?;
            Ok(of_run(alloc, text, bytes.as_slice(), asked)?)
        }
    }
}

/// A text of the run of the plan that these bytes are, each line behind `> `; one line `> no plan` where they are none.
fn of_run(
    alloc: Global,
    text: RunText,
    bytes: &[u8],
    asked: RowOptions,
) -> Result<String, AllocError> {
    let plan = match read_plan(alloc, bytes) {
        Ok(plan) => plan,
        Err(PlanFault::Memory) => return Err(AllocError),
        Err(_) => return String::from_str(alloc, "\n> no plan"),
    };
    let log = run(alloc, &plan)?;
    let lines = text.of(alloc, &plan, &log, asked)?;
    marked(alloc, lines.as_str())
}

/// The log of a plan's run.
fn run(alloc: Global, plan: &Plan) -> Result<RunLog, AllocError> {
    run_serial(alloc, plan).or(Err(AllocError))
}
