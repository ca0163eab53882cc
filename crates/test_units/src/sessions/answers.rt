//! The last answers of a session.

use super::calls::{has, has_none, read, session_of, step, write};
use sja_regs::address::{CMR, MOD};
use sja_session::{Session, StepOutcome};
use sja_steps::{Step, StepAnswer};
use std::test::Fail;

/// The last answer is that of the last step that is done; one that waits has none, nor has a node that isn't there.
#[test]
fn the_last_answer_is_told(rt: HostRuntime) -> Result<(), Fail> {
    let mut session = session_of(rt.alloc(), 1000, 1)?;
    assert!(rt; has_none(&session, 0));
    assert!(rt; is_done_by_a_write(&mut session)?);
    assert!(rt; is_kept_by_a_wait(&mut session)?);
    assert!(rt; has_none(&session, 1));
    Ok(())
}

/// Whether the last answer is that of a write.
fn is_done_by_a_write(session: &mut Session) -> Result<bool, Fail> {
    write(session, 0, MOD, 0x00)?;
    write(session, 0, CMR, 0x01)?;
    Ok(has(session, 0, StepAnswer::Done))
}

/// Whether it's that of a read, though a step was tried after it that waits.
fn is_kept_by_a_wait(session: &mut Session) -> Result<bool, Fail> {
    let _ = read(session, 0, MOD)?;
    let waits = step(session, 0, Step::Sent)? == StepOutcome::Waits;
    Ok(waits && has(session, 0, StepAnswer::Value(0x00)))
}
