//! Drivers that wait up to the end, in version 3.

ghost use Rattle.std.specs.Prelude.{◌<◌, length};

use super::super::document::Document;
use super::super::kind::Kind;
use super::super::page::{Page, Piece};
use super::undone_steps::{steps_in_turns, turns_for};
use sja_log::{End, NodeRun, RunLog};
use sja_plan::{Plan, Turn};
use sja_steps::Step;

/// Says of each driver that waits up to the end for what; false where none does.
pub(crate) fn waiting_hints(
    page: &mut Page,
    document: &Document,
    plan: &Plan,
    log: &RunLog,
) -> bool {
    let mut told = false;
    for node in 0..plan.nodes() {
        if let Some(place) = waits_at(plan, log, node) {
            let steps = plan.steps(node);
            let left = steps.len().saturating_sub(place) as u64;
            let lack = lack_of(steps.get(place), log.nodes().get(node));
            let pieces = [
                Piece::Number(left),
                Piece::Number(steps.len() as u64),
                Piece::Text(lack),
            ];
            let template = "{0}node {3}: {4} of {5} steps left: it waits at step {1}, {2}: {6}";
            document.say(page, (Kind::Step(node), place), template, pieces);
            told = true;
        }
    }
    told
}

/// The step at which the driver of a node waits at the end, where it does: its turn came, and couldn't do it.
pub(crate) fn waits_at(plan: &Plan, log: &RunLog, node: usize) -> Option<usize>
    requires { node < length plan.now.nodes }
{
    let done = log.nodes().get(node)?.done().len();
    let steps = plan.steps(node);
    let Some(Step::Await(_) | Step::Sent | Step::Interrupt | Step::At(_)) = steps.get(done) else {
        return None;
    };
    let turns = plan.turns();
    if steps_in_turns(turns, node) <= done as u64 {
        return None;
    }
    let turn = turns_for(turns, node, done.saturating_add(1)).saturating_sub(1);
    let before = turns.get(..turn).unwrap_or(turns);
    if log.end() != End::Bits || is_short(before, plan.bits()) || is_passed(before, log) {
        Some(done)
    } else {
        None
    }
}

/// Whether these turns run no more than so many bits, whatever comes.
fn is_short(turns: &[Turn], bits: u32) -> bool {
    let mut sum = 0u32;
    for turn in turns {
        match turn {
            Turn::Bus(count) => sum = sum.saturating_add(*count),
            Turn::Node(_, _) | Turn::All(_) => (),
            _ => return false,
        }
    }
    sum <= bits
}

/// Whether a run came past these first turns, since a driver did more steps than they have.
fn is_passed(turns: &[Turn], log: &RunLog) -> bool {
    for (node, run) in log.nodes().iter().enumerate() {
        if run.done().len() as u64 > steps_in_turns(turns, node) {
            return true;
        }
    }
    false
}

/// What the step lacks that a driver waits at.
fn lack_of(step: Option<&Step>, run: Option<&NodeRun>) -> &'static str {
    match step {
        Some(Step::Sent) => "its request isn't over",
        Some(Step::Interrupt) => "its interrupt line isn't active",
        Some(Step::At(_)) => "fewer bits have run",
        _ if unread_of(run) > 0 => "too few messages are there",
        _ => "no message is there",
    }
}

/// How many messages of a node's last activation are unread.
fn unread_of(run: Option<&NodeRun>) -> usize {
    match run {
        Some(run) => match run.activations().last() {
            Some(activation) => activation.unread().len(),
            None => 0,
        },
        None => 0,
    }
}
