//! Steps of version 3 that the controller ignored: each is done, and changes nothing, or not all that it says.

use super::super::document::Document;
use super::super::kind::Kind;
use super::super::page::{Page, Piece};
use sja_steps::{Ignored, Step, StepRecord};

/// Says which steps of a node the controller ignored, and why.
pub(crate) fn ignored_hints(
    page: &mut Page,
    document: &Document,
    node: usize,
    steps: &[Step],
    done: &[StepRecord],
) {
    for (place, one) in done.iter().enumerate() {
        let Some(step) = steps.get(place) else {
            return;
        };
        let template = match one.answer.ignored(step) {
            Some(cause) => template_of(step, cause),
            None => "",
        };
        let nothing = [Piece::Text(""); 3];
        document.say(page, (Kind::Step(node), place), template, nothing);
    }
}

/// What is said of a step that was ignored for this cause.
fn template_of(step: &Step, cause: Ignored) -> &'static str {
    match (cause, step) {
        (Ignored::ReadOnly, _) =>
            "{0}node {3}, step {1}: {2} was ignored: that register can only be read",
        (Ignored::WriteOnly, _) =>
            "{0}node {3}, step {1}: {2} reads 00 ever: CMR can only be written",
        (Ignored::ResetOnly, Step::Write(0, _)) =>
            "{0}node {3}, step {1}: {2} was ignored: reset mode alone takes LOM, STM and AFM",
        (Ignored::ResetOnly, _) =>
            "{0}node {3}, step {1}: {2} was ignored: reset mode alone takes it",
        (Ignored::ActiveOnly, _) =>
            "{0}node {3}, step {1}: {2} was ignored: reset mode takes no command",
        (Ignored::ListenOnly, _) =>
            "{0}node {3}, step {1}: {2} requests nothing: in listen only mode no frame is sent",
        (Ignored::Locked, Step::Write(1, _)) =>
            "{0}node {3}, step {1}: {2} requests nothing: TBS is 0, a request isn't over",
        (Ignored::Locked, _) =>
            "{0}node {3}, step {1}: {2} was ignored: TBS is 0, the transmit buffer isn't released",
        (Ignored::Empty, _) => "{0}node {3}, step {1}: {2} releases nothing: no message is there",
    }
}
