//! Strikes on the way, and the same before the first bit.

use super::calls::{node_of, number, step};
use super::session_ends::is_report_of;
use sja_log::RunLog;
use sja_plan::Plan;
use sja_plan_reading::read_plan;
use sja_plan_text::{has_texts, plan_text};
use sja_serial::run_serial;
use sja_session::Session;
use sja_steps::Step;
use std::alloc::{AllocError, Global};
use test_words::message_of;
use text_report::report;

/// `alike 0 11 76`: of how many bits, from 11 to 75, a strike of node 0 just before the bit has the same report and
/// writes the same plan as one before the first bit, and a run of the plan's document has that report too.
pub fn alike(alloc: Global, rest: &[&str]) -> Result<Option<u32>, AllocError> {
    match asked_of(rest) {
        Some((node, from, to)) => Ok(Some(alike_in(alloc, node, from, to)?)),
        None => Ok(None),
    }
}

/// The node and the bits of these words.
fn asked_of(rest: &[&str]) -> Option<(u8, u32, u32)> {
    let [node, from, to] = rest else {
        return None;
    };
    Some((node_of(node)?, number(from)?, number(to)?))
}

/// Of how many of these bits a strike of a node is the same.
fn alike_in(alloc: Global, node: u8, from: u32, to: u32) -> Result<u32, AllocError> {
    let mut count = 0u32;
    for bit in from..to {
        if are_same(alloc, node, bit)? {
            count = count.saturating_add(1);
        }
    }
    Ok(count)
}

/// Whether all three reports of a strike in this bit are the same, and both plans.
fn are_same(alloc: Global, node: u8, bit: u32) -> Result<bool, AllocError> {
    match strike(alloc, bit, node, bit)? {
        Some((late, document)) => {
            let both = (late.as_str(), document.as_str());
            Ok(has_same_early(alloc, node, bit, both)? && runs_again(alloc, both)?)
        }
        None => Ok(false),
    }
}

/// Whether a strike in this bit that is made before the first bit has this report and this document.
fn has_same_early(
    alloc: Global,
    node: u8,
    bit: u32,
    late: (&str, &str),
) -> Result<bool, AllocError> {
    match strike(alloc, 0, node, bit)? {
        Some((early, document)) => Ok((early.as_str(), document.as_str()) == late),
        None => Ok(false),
    }
}

/// Whether a run of this document has this report.
fn runs_again(alloc: Global, wanted: (&str, &str)) -> Result<bool, AllocError> {
    let (wanted, document) = wanted;
    match read_plan(alloc, document.as_bytes()) {
        Ok(plan) => is_report_of_run(alloc, &plan, wanted),
        Err(_) => Ok(false),
    }
}

/// Whether this is the report of a run of a plan.
fn is_report_of_run(alloc: Global, plan: &Plan, wanted: &str) -> Result<bool, AllocError> {
    let log = run_serial(alloc, plan).map_err(|_| AllocError)?;
    is_report_of(alloc, &log, wanted)
}

/// The report of a session that is struck after so many bits, once it is at rest and node 1 has released what it has,
/// and the document of its plan; none where a call isn't done or the plan has none.
fn strike(
    alloc: Global,
    after: u32,
    node: u8,
    bit: u32,
) -> Result<Option<(String, String)>, AllocError> {
    match Session::new(alloc, 1, 1000, 2) {
        Ok(session) => texts_of(alloc, session, after, node, bit),
        Err(_) => Ok(None),
    }
}

/// The same over a session without a bit.
fn texts_of(
    alloc: Global,
    mut session: Session,
    after: u32,
    node: u8,
    bit: u32,
) -> Result<Option<(String, String)>, AllocError> {
    if is_struck(&mut session, after, node, bit) {
        finished(alloc, session)
    } else {
        Ok(None)
    }
}

/// Whether a session is struck after so many bits, comes to rest, and node 1 releases what it has then.
fn is_struck(session: &mut Session, after: u32, node: u8, bit: u32) -> bool {
    is_begun(session, after)
        && session.strike(node, u64::from(bit)).is_ok()
        && session.rest().is_ok()
        && releases(session)
        && releases(session)
}

/// Whether node 1 tries a release.
fn releases(session: &mut Session) -> bool {
    session.step(1, Step::Release).is_ok()
}

/// The report of a session at its end, and the document of its plan; none where it has none.
fn finished(alloc: Global, session: Session) -> Result<Option<(String, String)>, AllocError> {
    let (plan, log) = session.finish(alloc).map_err(|_| AllocError)?;
    texts(alloc, &plan, &log)
}

/// The report of a log, and the document of a plan; none where it has none.
fn texts(alloc: Global, plan: &Plan, log: &RunLog) -> Result<Option<(String, String)>, AllocError> {
    if !has_texts(plan) {
        return Ok(None);
    }
    let document = plan_text(alloc, plan).map_err(|_| AllocError)?;
    let report = report(alloc, log).map_err(|_| AllocError)?;
    Ok(Some((report, document)))
}

/// Has node 0 send the message 02 24 60 11 22 to node 1, and runs so many bits; whether all was done.
fn is_begun(session: &mut Session, bits: u32) -> bool {
    let Some(message) = message_of(&["02", "24", "60", "11", "22"]) else {
        return false;
    };
    let steps = [
        (1, Step::Start),
        (0, Step::Start),
        (0, Step::Load(message)),
        (0, Step::Command(0x01)),
    ];
    for (node, one) in steps {
        if !super::many::is_done(&step(session, node, one)) {
            return false;
        }
    }
    session.bits(bits) == Ok(bits)
}
