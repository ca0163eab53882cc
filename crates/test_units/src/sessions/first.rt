//! The first program of `docs/use/LIBRARY.md`.

use can_frame::Message;
use sja_log::RunLog;
use sja_session::Session;
use sja_steps::Step;
use std::alloc::Global;
use std::test::Fail;
use test_frames::TWO_BYTES;
use text_report::report;

/// Its report: node 0 is idle again long before the 100 bits are over.
const REPORT: &str = "sja version 1 bits 100 end turns
node 0 tec 0 rec 0 steps 3
step 1 ok
step 2 ok
step 3 ok
activation 1 stored 0 overrun 0 free 64
node 1 tec 0 rec 0 steps 2
step 1 ok
step 2 5
activation 1 stored 1 overrun 0 free 64
released 02 24 60 11 22
";

/// A session of two nodes.
fn session_of(alloc: Global) -> Result<Session, Fail> {
    Ok(Session::new(alloc, 1, 1000, 2)?)
}

/// Does a step.
fn step(session: &mut Session, node: u8, step: Step) -> Result<(), Fail> {
    session.step(node, step)?;
    Ok(())
}

/// Loads the message that node 0 sends.
fn load(session: &mut Session) -> Result<(), Fail> {
    step(session, 0, Step::Load(Message::from_bytes(&TWO_BYTES)?))
}

/// Runs a hundred bits.
fn run(session: &mut Session) -> Result<(), Fail> {
    session.bits(100)?;
    Ok(())
}

/// Node 0 sends a message, and node 1 releases it.
fn first(session: &mut Session) -> Result<(), Fail> {
    step(session, 1, Step::Start)?;
    step(session, 0, Step::Start)?;
    load(session)?;
    step(session, 0, Step::Command(1))?;
    run(session)?;
    step(session, 1, Step::Release)
}

/// The log of what was done.
fn log_of(alloc: Global, session: Session) -> Result<RunLog, Fail> {
    let (_plan, log) = session.finish(alloc)?;
    Ok(log)
}

/// Whether this is the report of a run.
fn is_reported(alloc: Global, log: &RunLog, wanted: &str) -> Result<bool, Fail> {
    let text = report(alloc, log)?;
    Ok(text.as_str() == wanted)
}

/// The program gives this report.
#[test]
fn the_first_program_gives_its_report(rt: HostRuntime) -> Result<(), Fail> {
    let mut session = session_of(rt.alloc())?;
    first(&mut session)?;
    let log = log_of(rt.alloc(), session)?;
    assert!(rt; is_reported(rt.alloc(), &log, REPORT)?);
    Ok(())
}
