//! [`hints`]: what a run left out without a word.

ghost use Rattle.std.specs.Prelude.{IfOk, string_bytes};
ghost use Rattle.sja_check.specs.Lines.{AreHints};

mod alone;
mod cut_off;
mod given_item;
mod ignored_steps;
mod late;
mod of_node;
mod refused_steps;
mod remedy;
mod requests;
mod starts;
mod steps_left;
mod story;
mod undone_steps;
mod waiting;

use super::document::Document;
use super::lines::text_of_hints;
use super::page::Page;
use alone::unacknowledged;
use can_frame::OutOfMemory;
use cut_off::cut_off;
use late::late_strikes;
use of_node::node_hints;
use sja_log::{End, RunLog};
use sja_plan::{FIRST_BY_BYTES, Plan, Turn};
use std::alloc::Global;
use story::{Story, stories_of};
use waiting::waiting_hints;

/// What a run in one thread of this plan left out, a line each of at most 100 characters: where the bits were spent and
/// which turns didn't come, refused steps with what to do, steps that weren't done and why, nodes that were never
/// started, and strikes past the last bit. In version 3 the cause comes first, as that nobody acknowledges or for what
/// drivers wait; all steps that are left are told, and those that the controller ignored.
///
/// The bytes are those of the plan: where they are others, lines and texts are left out. Of more than 20 hints 20 are
/// told, and how many more there are (this project's own rule).
///
/// Error: [`OutOfMemory`] where memory was refused.
pub fn hints(alloc: Global, bytes: &[u8], plan: &Plan, log: &RunLog) -> Result<String, OutOfMemory>
    ensures { IfOk result (λ text. AreHints (string_bytes text)) }
{
    let mut page = Page::new(alloc);
    match Document::read(alloc, bytes) {
        Ok(document) => left_out(&mut page, &document, plan, log),
        Err(_) => page.refused = true,
    }
    page.cut();
    if page.refused {
        return Err(OutOfMemory);
    }
    Ok(text_of_hints(alloc, page.lines.as_slice())?)
}

/// Says what a run of this plan left out.
fn left_out(page: &mut Page, document: &Document, plan: &Plan, log: &RunLog) {
    let mut stories = Vec::new(page.alloc);
    if plan.version() < FIRST_BY_BYTES {
        cut_off(page, document, plan, log);
    } else {
        match stories_of(page.alloc, log) {
            Ok(told) => stories = told,
            Err(_) => page.refused = true,
        }
        causes(page, document, plan, log, &stories);
    }
    for node in 0..plan.nodes() {
        node_hints(page, document, plan, log, node);
    }
    late_strikes(page, document, plan.strikes(), log.bits());
}

/// Says why a run of version 3 came to no other end, the cause first: nobody acknowledges, or drivers wait. Where
/// neither is known it says that the run was cut off.
fn causes(page: &mut Page, document: &Document, plan: &Plan, log: &RunLog, stories: &[Story]) {
    let is_short = log.end() == End::Bits || has_left(plan, log);
    let is_alone = is_short && unacknowledged(page, document, stories);
    let waits = waiting_hints(page, document, plan, log);
    if !is_alone && !(waits && goes(plan.turns())) {
        cut_off(page, document, plan, log);
    }
}

/// Whether a driver has steps left.
fn has_left(plan: &Plan, log: &RunLog) -> bool {
    for (node, run) in log.nodes().iter().enumerate() {
        if node < plan.nodes() && run.done().len() < plan.steps(node).len() {
            return true;
        }
    }
    false
}

/// Whether the drivers go by themselves in one of these turns.
fn goes(turns: &[Turn]) -> bool {
    for turn in turns {
        if let Turn::Go = turn {
            return true;
        }
    }
    false
}
