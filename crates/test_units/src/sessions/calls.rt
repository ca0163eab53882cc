//! Calls of a session that promise much, each through one function of the tests: what a call promises is no matter of
//! a test's own proof, which is quick without it.

use sja_log::RunLog;
use sja_plan::Plan;
use sja_serial::run_serial;
use sja_session::{Session, StepOutcome};
use sja_steps::{Step, StepAnswer};
use std::alloc::Global;
use std::test::Fail;

/// A session of version 3 with these bits and so many nodes.
pub(crate) fn session_of(alloc: Global, bits: u32, nodes: u8) -> Result<Session, Fail> {
    Ok(Session::new(alloc, 3, bits, nodes)?)
}

/// Writes a byte to an address.
pub(crate) fn write(session: &mut Session, node: u8, address: u8, value: u8) -> Result<(), Fail> {
    session.write(node, address, value)?;
    Ok(())
}

/// What an address reads as.
pub(crate) fn read(session: &mut Session, node: u8, address: u8) -> Result<u8, Fail> {
    Ok(session.read(node, address)?)
}

/// Does a step, if it hasn't to wait.
pub(crate) fn step(session: &mut Session, node: u8, step: Step) -> Result<StepOutcome, Fail> {
    Ok(session.step(node, step)?)
}

/// Whether this is the answer of a node's last step.
pub(crate) fn has(session: &Session, node: u8, wanted: StepAnswer) -> bool {
    session.answer(node) == Some(wanted)
}

/// Whether no step of a node has an answer.
pub(crate) fn has_none(session: &Session, node: u8) -> bool {
    session.answer(node).is_none()
}

/// Runs so many bits.
pub(crate) fn bits(session: &mut Session, count: u32) -> Result<(), Fail> {
    session.bits(count)?;
    Ok(())
}

/// The plan that the session wrote, and its log.
pub(crate) fn ended(alloc: Global, session: Session) -> Result<(Plan, RunLog), Fail> {
    Ok(session.finish(alloc)?)
}

/// The log of a run of this plan.
pub(crate) fn run_of(alloc: Global, plan: &Plan) -> Result<RunLog, Fail> {
    Ok(run_serial(alloc, plan)?)
}
