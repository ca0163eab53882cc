//! Steps that are left, each by number and text, in version 3.

use super::super::document::Document;
use super::super::kind::Kind;
use super::super::page::{Page, Piece};

/// How many steps of a node are named (this project's own rule).
const MOST_NAMED: usize = 5;

/// Says which steps of a node are left behind so many of these, and why none was done.
pub(crate) fn left_hints(
    page: &mut Page,
    document: &Document,
    node: usize,
    done: usize,
    steps: usize,
    why: &'static str,
) {
    let count = steps.saturating_sub(done);
    let template = if count == 1 {
        "{0}node {3}: {4} of {5} steps left: {2}: {6}"
    } else {
        "{0}node {3}: {4} of {5} steps left: step {1}, {2}: {6}"
    };
    let told = [
        Piece::Number(count as u64),
        Piece::Number(steps as u64),
        Piece::Text(why),
    ];
    document.say(page, (Kind::Step(node), done), template, told);
    more_hints(page, document, node, done.saturating_add(1), steps);
}

/// Says which steps of a node from this one on are left too.
pub(crate) fn more_hints(
    page: &mut Page,
    document: &Document,
    node: usize,
    first: usize,
    steps: usize,
) {
    let end = first
        .saturating_add(MOST_NAMED)
        .saturating_sub(1)
        .min(steps);
    for place in first..end {
        let nothing = [Piece::Text(""); 3];
        let template = "{0}node {3}: step {1}, {2}, is left too";
        document.say(page, (Kind::Step(node), place), template, nothing);
    }
    let others = steps.saturating_sub(end);
    if others > 0 {
        let told = [Piece::Number(node as u64), Piece::Number(others as u64)];
        page.say("node {0}: and {1} more of its steps", &told);
    }
}
