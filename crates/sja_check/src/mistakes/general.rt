//! What is said of a fault where nothing is known of its place.

use super::super::page::{Page, Piece};
use sja_plan_reading::PlanFault;

/// All keys, in words.
pub(crate) const KEYS_ARE: &str = "the keys are version, bits, node, turns, faults";

/// Says the rule that is broken where a plan has this fault.
pub(crate) fn general(page: &mut Page, fault: PlanFault) {
    let [first, second] = numbers_of(fault);
    page.say(
        rule_of(fault),
        &[Piece::Number(first), Piece::Number(second)],
    );
    let more = match fault {
        PlanFault::Key => KEYS_ARE,
        _ => "",
    };
    page.say(more, &[]);
}

/// The numbers that a fault has; 0 in place of those that it hasn't.
fn numbers_of(fault: PlanFault) -> [u64; 2] {
    match fault {
        PlanFault::Step(node, number) => [node as u64, number as u64],
        PlanFault::Turn(number) | PlanFault::Strike(number) => [number as u64, 0],
        _ => [0, 0],
    }
}

/// The rule that a plan with this fault breaks, with gaps for its numbers.
fn rule_of(fault: PlanFault) -> &'static str {
    match fault {
        PlanFault::TooLong =>
            "a plan has at most 65536 bytes, or 16777216 where \"version = 3\" stands before all other keys",
        PlanFault::NotText => "a plan is text in UTF-8",
        PlanFault::Toml => "a plan is a TOML document",
        PlanFault::Key => "a key is unknown, missing or of the wrong kind",
        PlanFault::Version => "version is 1, 2 or 3",
        PlanFault::Bits => "bits is from 1 to 200000, or to 2000000 in version 3",
        PlanFault::NodeCount => "a plan has 1 to 8 nodes, each below its own line [[node]]",
        PlanFault::StepCount => "a node has at most 1000 steps, or 65535 in version 3",
        PlanFault::Step(_, _) => "node {0}, step {1}: its text says no step",
        PlanFault::TurnCount => "a plan has at most 10000 turns, or 200000 in version 3",
        PlanFault::Turn(_) => "turn {0}: its text says no turn",
        PlanFault::StrikeCount =>
            "the strikes count at most 1000, or 100000 in version 3: \"K B E T\" counts T, any other 1",
        PlanFault::Strike(_) => "strike {0}: its text says no strike",
        PlanFault::Memory => "memory was refused; the plan itself may be right",
    }
}
