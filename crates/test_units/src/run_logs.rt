//! Runs without a log: a list of what happened was made for more than it keeps.

use sja_bus::NodeLog;
use sja_driver::{LoggedDriver, WorkLog};
use sja_journal::{Recorder, WITHOUT_END};
use sja_link::DequeLinks;
use sja_log::NoLog;
use sja_promises::{LeftDown, node_runs};
use std::alloc::Global;
use std::test::Fail;

/// How many items are told of so many links on which nothing lies.
fn left_on(alloc: Global, starts: u64) -> Result<Result<usize, NoLog>, Fail> {
    let links = DequeLinks::new(alloc, 0, starts)?;
    Ok(LeftDown::on(alloc, &links).map(|left| left.items().len()))
}

#[test]
fn what_many_links_may_leave_is_not_listed(rt: HostRuntime) -> Result<(), Fail> {
    assert!(rt; left_on(rt.alloc(), 64)? == Ok(0));
    assert!(rt; left_on(rt.alloc(), 65)? == Ok(0));
    assert!(rt; left_on(rt.alloc(), 1 << 56)? == Err(NoLog::Endless));
    Ok(())
}

/// What a bus leaves of a node to which nothing happened.
fn nothing(alloc: Global) -> Result<NodeLog, Fail> {
    let journal = Recorder::new(alloc, 10, 10)?.into_journal()?;
    Ok(NodeLog {
        journal,
        txerr: 0,
        rxerr: 0,
    })
}

/// How many nodes are told, of one to which nothing happened, and whose driver's log was made for this version and for
/// so many steps and acts.
fn count_nodes(
    alloc: Global,
    version: u8,
    steps: u64,
    acts: u64,
) -> Result<Result<usize, NoLog>, Fail> {
    let logs = Vec::from_array(alloc, [nothing(alloc)?])?;
    let driver = LoggedDriver::new(0, WorkLog::new(alloc, version, steps, acts)?);
    let runs = node_runs(alloc, logs, &[driver], &[LeftDown::new(alloc)]);
    Ok(runs.map(|runs| runs.len()))
}

/// One list of a driver's log is enough: the steps done, the messages released, or the ledgers left.
#[test]
fn a_node_whose_driver_has_a_log_without_an_end_is_not_told(rt: HostRuntime) -> Result<(), Fail> {
    let many = (1 << 40) + 1;
    assert!(rt; count_nodes(rt.alloc(), 3, 10, 10)? == Ok(1));
    assert!(rt; count_nodes(rt.alloc(), 3, many, 10)? == Err(NoLog::Endless));
    assert!(rt; count_nodes(rt.alloc(), 3, 10, many)? == Err(NoLog::Endless));
    assert!(rt; count_nodes(rt.alloc(), WITHOUT_END, 10, 10)? == Err(NoLog::Endless));
    Ok(())
}
