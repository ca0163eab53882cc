//! Steps that weren't done.

use super::super::document::Document;
use super::super::kind::Kind;
use super::super::page::{Page, Piece};
use sja_log::End;
use sja_plan::Turn;
use sja_steps::Step;

/// Says that the first step of a node behind so many wasn't done, and why.
pub(crate) fn undone_hint(
    page: &mut Page,
    document: &Document,
    node: usize,
    turns: &[Turn],
    steps: &[Step],
    done: usize,
    end: End,
) {
    let more = steps.len().saturating_sub(done).saturating_sub(1) as u64;
    let turned = steps_in_turns(turns, node);
    let lacks = turned <= done as u64;
    let (first, second) = if lacks {
        (Piece::Number(turned), Piece::Number(steps.len() as u64))
    } else {
        (
            Piece::Text(why_undone(steps.get(done), end)),
            Piece::Text(""),
        )
    };
    let told = [Piece::Number(more), first, second];
    document.say(
        page,
        (Kind::Step(node), done),
        template_of(lacks, more > 0),
        told,
    );
}

/// What is said where the turns of the node have no more steps, or for another reason, and of more steps or one.
fn template_of(lacks: bool, is_more: bool) -> &'static str {
    match (lacks, is_more) {
        (true, true) =>
            "{0}node {3}, step {1}: {2} and {4} more weren't done: its turns do {5} of {6} steps",
        (true, false) => "{0}node {3}, step {1}: {2} wasn't done: its turns do {5} of {6} steps",
        (false, true) => "{0}node {3}, step {1}: {2} and {4} more weren't done: {5}",
        (false, false) => "{0}node {3}, step {1}: {2} wasn't done: {5}",
    }
}

/// Why the step behind so many wasn't done in its turn.
fn why_undone(step: Option<&Step>, end: End) -> &'static str {
    match step {
        _ if end == End::Bits => "the bits were spent before",
        Some(Step::Await(_)) => "fewer messages had come",
        Some(Step::Sent) => "the buffer wasn't released",
        Some(Step::Interrupt) => "the interrupt line wasn't active",
        Some(Step::At(_)) => "fewer bits had run",
        _ => "its turn didn't come",
    }
}

/// How many steps the turns of a node have.
pub(crate) fn steps_in_turns(turns: &[Turn], node: usize) -> u64 {
    let mut count = 0u64;
    for turn in turns {
        count = count.saturating_add(steps_in(turn, node));
    }
    count
}

/// The first so many turns have so many steps of a node; all turns where they have fewer.
pub(crate) fn turns_for(turns: &[Turn], node: usize, steps: usize) -> usize {
    let mut left = steps as u64;
    for (place, turn) in turns.iter().enumerate() {
        if left == 0 {
            return place;
        }
        left = left.saturating_sub(steps_in(turn, node));
    }
    turns.len()
}

/// How many steps of a node a turn has.
fn steps_in(turn: &Turn, node: usize) -> u64 {
    match turn {
        Turn::Node(of, steps) if usize::from(*of) == node => u64::from(*steps),
        Turn::All(of) if usize::from(*of) == node => u64::from(u32::MAX),
        Turn::Go => u64::from(u32::MAX),
        _ => 0,
    }
}
