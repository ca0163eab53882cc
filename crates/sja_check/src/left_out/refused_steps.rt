//! Steps that were refused.

use super::super::document::Document;
use super::super::kind::Kind;
use super::super::page::{Page, Piece};
use super::remedy::remedy_of;
use super::starts::Starts;
use sja_plan::FIRST_BY_BYTES;
use sja_steps::{Refusal, Step, StepAnswer, StepRecord};

/// Says which steps of a node were refused, with what to do.
pub(crate) fn refused_hints(
    page: &mut Page,
    document: &Document,
    version: u8,
    node: usize,
    steps: &[Step],
    done: &[StepRecord],
) {
    let mut starts = Starts::NoneYet;
    for (place, one) in done.iter().enumerate() {
        let Some(step) = steps.get(place) else {
            return;
        };
        if let StepAnswer::Refused(refusal) = &one.answer {
            let remedy = remedy_of(*refusal, version, step, starts);
            let told = [
                Piece::Refused(*refusal),
                Piece::Text(remedy),
                Piece::Text(""),
            ];
            let template = "{0}node {3}, step {1}: {2} was refused {4}: {5}";
            document.say(page, (Kind::Step(node), place), template, told);
        }
        starts = starts_after(starts, version, step, &one.answer);
    }
}

/// What the starts of a node are after a step that was answered so.
fn starts_after(starts: Starts, version: u8, step: &Step, answer: &StepAnswer) -> Starts {
    match answer {
        StepAnswer::Refused(Refusal::NoActivationLeft) => Starts::Spent,
        StepAnswer::Refused(_) => starts,
        _ if can_start(version, step) => Starts::Begun,
        _ => starts,
    }
}

/// Whether a step can start a node: `start`, and in version 3 also a write of MOD with RM 0 (SJA1000 data sheet,
/// 6.4.3).
pub(crate) fn can_start(version: u8, step: &Step) -> bool {
    match step {
        Step::Start => true,
        Step::Write(0, value) => version >= FIRST_BY_BYTES && *value % 2 == 0,
        _ => false,
    }
}
