//! A run that was cut off since its bits were spent.

ghost use Rattle.std.specs.Prelude.{◌<◌, length};

use super::super::document::Document;
use super::super::kind::Kind;
use super::super::outline::Spot;
use super::super::page::{Page, Piece};
use super::undone_steps::turns_for;
use sja_log::{End, RunLog};
use sja_plan::{Plan, Turn};
use sja_steps::Step;

/// Says that the run was cut off, in which turn, and which turns didn't come, where its bits were spent.
pub(crate) fn cut_off(page: &mut Page, document: &Document, plan: &Plan, log: &RunLog) {
    if log.end() != End::Bits {
        return;
    }
    let bits = Piece::Number(u64::from(plan.bits()));
    match cut_turn(plan, log) {
        Some(place) => turn_hints(page, document, bits, place, plan.turns().len()),
        None => {
            let line = document.line(Spot::Key("bits"));
            let template = "{0}the run was cut off: a turn needed bit {1}, and bits = {1}";
            page.say(template, &[line, bits]);
        }
    }
}

/// Says that this turn of so many was cut off, and which turns didn't come.
fn turn_hints(
    page: &mut Page,
    document: &Document,
    bits: Piece<'static>,
    place: usize,
    turns: usize,
) {
    let template = "{0}turn {1}: {2} was cut off: it needed bit {4}, and bits = {4}";
    document.say(page, (Kind::Turn, place), template, [bits; 3]);
    let next = place.saturating_add(1);
    let template = if next >= turns {
        ""
    } else if next.saturating_add(1) == turns {
        "{0}turn {1} didn't come"
    } else {
        "{0}turns {1} to {4} didn't come"
    };
    let last = Piece::Number(turns as u64);
    document.say(page, (Kind::Turn, next), template, [last; 3]);
}

/// The turn in which the bits were spent, where it is known: the one turn that runs bits behind those that the steps
/// done needed, and before the first that would have had steps done.
fn cut_turn(plan: &Plan, log: &RunLog) -> Option<usize> {
    let turns = plan.turns();
    let mut needed = 0usize;
    let mut known = turns.len();
    for node in 0..plan.nodes() {
        let done = log.nodes().get(node)?.done().len();
        let steps = plan.steps(node);
        needed = needed.max(turns_for(turns, node, done));
        if done < steps.len() && !waits(steps, done) {
            known = known.min(turns_for(turns, node, done.saturating_add(1)).saturating_sub(1));
        }
    }
    one_of_bits(turns, needed, known)
}

/// Whether one of the first so many steps, or the one behind them, waits for something.
fn waits(steps: &[Step], done: usize) -> bool {
    for step in steps.get(..done.saturating_add(1)).unwrap_or(steps) {
        if let Step::Await(_) | Step::Sent | Step::Interrupt | Step::At(_) = step {
            return true;
        }
    }
    false
}

/// The turn that runs bits from one place to before another, where it is the only one.
fn one_of_bits(turns: &[Turn], first: usize, end: usize) -> Option<usize> {
    let mut found = None;
    let mut place = first;
    for turn in turns.get(first..end).unwrap_or(&[]) {
        if let Turn::Bus(_) | Turn::Rest | Turn::Irq(_, _) | Turn::Go = turn {
            if found.is_some() {
                return None;
            }
            found = Some(place);
        }
        place = place.saturating_add(1);
    }
    found
}
