//! One run: reads a plan on standard input, runs it in one thread, and prints the report of the run.
//!
//! It is the shortest way from a plan to its report by the calls of these crates, to be copied.
#![tactic(auto)]

mod fault;

use fault::Fault;
use sja_placed_strikes::plan_of;
use sja_serial::run_serial;
use std::alloc::Global;
use std::io::Read;
use std::process::ExitCode;
use text_report::report;

/// Answers the exit status: 0 where the report was printed, else 1. Each error has a line on standard error.
fn main(rt: HostRuntime) -> ExitCode {
    match reported(rt.alloc(), &mut rt.stdin()) {
        Ok(text) => ExitCode::from(if print!(rt; "{text}").is_ok() { 0 } else { 1 }),
        Err(fault) => {
            let _ = eprintln!(rt; "one_run: {fault}");
            ExitCode::from(1)
        }
    }
}

/// The report of a run in one thread of the plan that the bytes of the input are.
fn reported<R: Read>(alloc: Global, input: &mut R) -> Result<String, Fault> {
    let mut bytes = Vec::new(alloc);
    input.read_to_end(&mut bytes)?;
    let plan = plan_of(alloc, bytes.as_slice())?;
    let log = run_serial(alloc, &plan)?;
    let text = report(alloc, &log)?;
    Ok(text)
}
