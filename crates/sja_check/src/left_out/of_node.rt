//! What a run left out of a node's steps.

ghost use Rattle.std.specs.Prelude.{◌<◌, length};

use super::super::document::Document;
use super::super::outline::Spot;
use super::super::page::{Page, Piece};
use super::ignored_steps::ignored_hints;
use super::refused_steps::{can_start, refused_hints};
use super::steps_left::{left_hints, more_hints};
use super::undone_steps::{steps_in_turns, undone_hint};
use super::waiting::waits_at;
use sja_log::RunLog;
use sja_plan::{FIRST_BY_BYTES, Plan, Turn};
use sja_steps::Step;

/// Says what there is to say of a node: that it is never started, the steps that were refused or ignored, and the first
/// one that wasn't done.
pub(crate) fn node_hints(
    page: &mut Page,
    document: &Document,
    plan: &Plan,
    log: &RunLog,
    node: usize,
)
    requires { node < length plan.now.nodes }
{
    let steps = plan.steps(node);
    let Some(run) = log.nodes().get(node) else {
        return;
    };
    let line = document.line(Spot::Node(node));
    page.say(
        never_started(plan.version(), steps),
        &[line, Piece::Number(node as u64)],
    );
    refused_hints(page, document, plan.version(), node, steps, run.done());
    ignored_hints(page, document, node, steps, run.done());
    let done = run.done().len();
    if done >= steps.len() {
        return;
    }
    if plan.version() < FIRST_BY_BYTES {
        undone_hint(page, document, node, plan.turns(), steps, done, log.end());
    } else if waits_at(plan, log, node).is_some() {
        more_hints(page, document, node, done.saturating_add(1), steps.len());
    } else {
        let why = why_left(plan.turns(), node, done);
        left_hints(page, document, node, done, steps.len(), why);
    }
}

/// Why the steps of a node behind so many are left, where it doesn't wait.
fn why_left(turns: &[Turn], node: usize, done: usize) -> &'static str {
    if steps_in_turns(turns, node) <= done as u64 {
        "no turn came to it"
    } else {
        "the bits were spent before"
    }
}

/// What is said where none of these steps can start the node; nothing where one can.
fn never_started(version: u8, steps: &[Step]) -> &'static str {
    for step in steps {
        if can_start(version, step) {
            return "";
        }
    }
    if version < FIRST_BY_BYTES {
        "{0}node {1} is never started: it has no step \"start\""
    } else {
        "{0}node {1} is never started: it has no step \"start\" or \"write 0 00\""
    }
}
