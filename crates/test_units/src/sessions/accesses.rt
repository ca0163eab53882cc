//! A session of version 3 from the first access to the report.

use super::calls::{bits, ended, read, run_of, session_of, step, write};
use sja_log::RunLog;
use sja_plan::Plan;
use sja_regs::address::{BUFFER, CMR, IER, IR, MOD, SR};
use sja_session::{Session, StepOutcome};
use sja_steps::Step;
use std::alloc::Global;
use std::test::Fail;
use text_report::report;

/// Node 0 sends the message 02 24 60 11 22 by addresses alone.
fn send(session: &mut Session) -> Result<(), Fail> {
    write(session, 0, MOD, 0x00)?;
    bits(session, 11)?;
    let message = [
        (BUFFER, 0x02u8),
        (17, 0x24),
        (18, 0x60),
        (19, 0x11),
        (20, 0x22),
    ];
    for (address, byte) in message {
        write(session, 0, address, byte)?;
    }
    write(session, 0, CMR, 0x01)
}

/// Runs bits until the line of node 1 rises; whether it did.
fn line_rises(session: &mut Session) -> Result<bool, Fail> {
    let watched = session.watch(200, [false, true, false, false, false, false, false, false])?;
    Ok(watched.rose == Some(1))
}

/// Runs bits until all are at rest.
fn rest(session: &mut Session) -> Result<(), Fail> {
    session.rest()?;
    Ok(())
}

/// Node 1 enables its receive interrupt, and node 0 sends.
fn begin(session: &mut Session) -> Result<(), Fail> {
    write(session, 1, IER, 0x01)?;
    write(session, 1, MOD, 0x00)?;
    send(session)
}

/// What node 1 reads of the message: IR, SR, and the second byte of the receive buffer.
fn received(session: &mut Session) -> Result<[u8; 3], Fail> {
    let interrupt = read(session, 1, IR)?;
    let status = read(session, 1, SR)?;
    Ok([interrupt, status, read(session, 1, 17)?])
}

/// Node 1 releases the message; IR after it.
fn released(session: &mut Session) -> Result<u8, Fail> {
    write(session, 1, CMR, 0x04)?;
    read(session, 1, IR)
}

/// The status of node 0 once all are at rest.
fn status_at_rest(session: &mut Session) -> Result<u8, Fail> {
    rest(session)?;
    read(session, 0, SR)
}

/// Whether node 1 is told, reads the message and releases it, and node 0, which waits meanwhile, has sent it.
fn goes(session: &mut Session) -> Result<bool, Fail> {
    Ok(
        line_rises(session)?
            && received(session)? == [0x01, 0x1d, 0x24]
            && released(session)? == 0x00
            && step(session, 0, Step::Sent)? == StepOutcome::Waits
            && status_at_rest(session)? == 0x0c,
    )
}

/// Whether a log has the report that has to come out.
fn is_wanted(alloc: Global, log: &RunLog) -> Result<bool, Fail> {
    let text = report(alloc, log)?;
    Ok(text.as_str() == REPORT)
}

/// Whether a run of this plan has.
fn runs_as_wanted(alloc: Global, plan: &Plan) -> Result<bool, Fail> {
    let log = run_of(alloc, plan)?;
    is_wanted(alloc, &log)
}

/// Node 0 sends a message by addresses alone, node 1 is told by its interrupt line. The report has a line for each
/// access: a write is `ok`, a read its value.
#[test]
fn a_message_goes_by_accesses(rt: HostRuntime) -> Result<(), Fail> {
    let mut session = session_of(rt.alloc(), 1000, 2)?;
    begin(&mut session)?;
    assert!(rt; goes(&mut session)?);
    let (plan, log) = ended(rt.alloc(), session)?;
    assert!(rt; is_wanted(rt.alloc(), &log)?);
    assert!(rt; runs_as_wanted(rt.alloc(), &plan)?);
    Ok(())
}

/// What comes out.
const REPORT: &str = "sja version 3 bits 76 end turns\n\
    node 0 tec 0 rec 0 steps 8\n\
    step 1 ok\n\
    step 2 ok\n\
    step 3 ok\n\
    step 4 ok\n\
    step 5 ok\n\
    step 6 ok\n\
    step 7 ok\n\
    step 8 0c\n\
    activation 1 stored 0 overrun 0 free 64\n\
    node 1 tec 0 rec 0 steps 7\n\
    step 1 ok\n\
    step 2 ok\n\
    step 3 01\n\
    step 4 1d\n\
    step 5 24\n\
    step 6 ok\n\
    step 7 00\n\
    activation 1 stored 1 overrun 0 free 64\n\
    released 02 24 60 11 22\n";
