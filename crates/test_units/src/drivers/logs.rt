//! What a log says of steps that were done, in a long run and in a short one.

use super::given::NODE;
use sja_driver::{LoggedDriver, WorkLog};
use sja_journal::{Endless, HISTORY_LIMIT, WITHOUT_END};
use sja_steps::StepAnswer;
use std::alloc::Global;
use std::test::Fail;

/// A driver whose log was made for so many steps and as many acts, after so many steps that were done, each after as
/// many bits as steps before it.
fn after(alloc: Global, room: u64, steps: u64) -> Result<LoggedDriver, Fail> {
    let mut driver = LoggedDriver::new(NODE, WorkLog::new(alloc, 3, room, room)?);
    for bits in 0..steps {
        let kept = driver.kept();
        driver.enter(StepAnswer::Done, bits, kept);
    }
    Ok(driver)
}

/// How many steps were done, and after how many bits the last one.
fn end_of(driver: &LoggedDriver) -> (usize, Option<u64>) {
    let log = driver.log();
    (log.done_count(), log.last_done().map(|done| done.bits))
}

#[test]
fn a_log_of_a_long_run_has_its_last_step(rt: HostRuntime) -> Result<(), Fail> {
    for steps in [1, 4_096, 4_097, 100_000] {
        let driver = after(rt.alloc(), 1 << 56, steps)?;
        assert!(rt; end_of(&driver) == (steps as usize, Some(steps - 1)));
        assert!(rt; driver.log().done().err() == Some(Endless));
    }
    assert!(rt; end_of(&after(rt.alloc(), 1 << 56, 0)?) == (0, None));
    Ok(())
}

#[test]
fn a_log_of_a_short_run_has_all_its_steps(rt: HostRuntime) -> Result<(), Fail> {
    let driver = after(rt.alloc(), 10_000, 10_000)?;
    assert!(rt; end_of(&driver) == (10_000, Some(9_999)));
    for (place, done) in driver.log().done()?.iter().enumerate() {
        assert!(rt; done.bits as usize == place);
    }
    assert!(rt; driver.log().done()?.len() == 10_000);
    Ok(())
}

/// Whether what was done can be read, what was released, and what was left.
fn can_be_read(log: &WorkLog) -> (bool, bool, bool) {
    let (done, released) = (log.done().is_ok(), log.released().is_ok());
    (done, released, log.left().is_ok())
}

/// A list of a log is read where it was made for few items, whatever the others were made for.
#[test]
fn a_list_of_a_log_made_for_many_is_not_read(rt: HostRuntime) -> Result<(), Fail> {
    let many = HISTORY_LIMIT as u64 + 1;
    for (version, steps, acts, expected) in [
        (3, 10, 10, (true, true, true)),
        (3, many, 10, (false, true, true)),
        (3, 10, many, (true, false, true)),
        (WITHOUT_END, 10, 10, (true, true, false)),
        (WITHOUT_END, many, many, (false, false, false)),
    ] {
        let log = WorkLog::new(rt.alloc(), version, steps, acts)?;
        assert!(rt; can_be_read(&log) == expected);
    }
    Ok(())
}
