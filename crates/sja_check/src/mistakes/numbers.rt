//! Numbers that are out of range, and lists that are too long.

use super::super::document::Document;
use super::super::kind::Kind;
use super::super::outline::Spot;
use super::super::texts::strikes_in;
use super::wording::Wording;
use sja_plan::{most_bits, most_steps, most_strikes, most_turns};
use sja_plan_reading::{LAST_VERSION, PlanFault};
use sja_steps::MOST_NODES;

/// Which number is out of range, or which list is too long, in a document with this fault.
pub(crate) fn of_count(document: &Document, fault: PlanFault) -> Wording<'static> {
    let node = crowded(document, most_steps(document.version()));
    let numbers = numbers_of(document, fault, node);
    let [number, most] = numbers;
    let least = match fault {
        PlanFault::Version | PlanFault::Bits | PlanFault::NodeCount => 1,
        _ => 0,
    };
    let wrong = if least <= number && number <= most {
        ""
    } else {
        template_of(fault, number)
    };
    let mut said = Wording::at(spot_of(fault, number, node), wrong, more_of(fault), "");
    said.numbers = numbers;
    if fault == PlanFault::StrikeCount && document.value("strikes").is_some() {
        said.spot = Spot::Key("strikes");
    }
    said
}

/// The number that this fault is of, of steps those of this node, and the greatest that there may be. Where a number is
/// missing, or the fault is of none, they are in range.
fn numbers_of(document: &Document, fault: PlanFault, node: usize) -> [i64; 2] {
    let version = document.version();
    match fault {
        PlanFault::Version => [
            document.number("version").unwrap_or(1),
            i64::from(LAST_VERSION),
        ],
        PlanFault::Bits => [
            document.number("bits").unwrap_or(1),
            i64::from(most_bits(version)),
        ],
        PlanFault::NodeCount => [whole(document.nodes().len()), i64::from(MOST_NODES)],
        PlanFault::StepCount => {
            let count = document.values(Kind::Step(node)).len();
            [whole(count), whole(most_steps(version))]
        }
        PlanFault::TurnCount => {
            let count = document.values(Kind::Turn).len();
            [whole(count), whole(most_turns(version))]
        }
        PlanFault::StrikeCount => {
            let count = strikes_in(document.values(Kind::Strike));
            [
                i64::try_from(count).unwrap_or(i64::MAX),
                i64::from(most_strikes(version)),
            ]
        }
        _ => [0, 0],
    }
}

/// Where it stands.
fn spot_of(fault: PlanFault, number: i64, node: usize) -> Spot<'static> {
    match fault {
        PlanFault::Version => Spot::Key("version"),
        PlanFault::Bits => Spot::Key("bits"),
        PlanFault::NodeCount if number == 0 => Spot::Key("node"),
        PlanFault::NodeCount => Spot::Node(usize::from(MOST_NODES)),
        PlanFault::StepCount => Spot::NodeKey(node, "steps"),
        PlanFault::TurnCount => Spot::Key("turns"),
        _ => Spot::Key("faults"),
    }
}

/// A count as a whole number.
fn whole(count: usize) -> i64 {
    i64::try_from(count).unwrap_or(i64::MAX)
}

/// The first node with more steps than these; 0 where none has.
fn crowded(document: &Document, most: usize) -> usize {
    for node in 0..document.nodes().len() {
        if document.values(Kind::Step(node)).len() > most {
            return node;
        }
    }
    0
}

/// What is said of a number with this fault.
fn template_of(fault: PlanFault, number: i64) -> &'static str {
    match fault {
        PlanFault::Version => "{0}version is 1, 2 or 3, and here it is {3}",
        PlanFault::Bits => "{0}bits is from 1 to {4}, and here it is {3}",
        PlanFault::NodeCount if number == 0 =>
            "{0}the plan has no node, and at least one is needed: [[node]]",
        PlanFault::NodeCount => "{0}the first node too many: the plan has {3}, and at most {4}",
        PlanFault::StepCount => "{0}node {5} has {3} steps, and a node has at most {4}",
        PlanFault::TurnCount => "{0}there are {3} turns, and a plan has at most {4}",
        _ => "{0}the strikes count {3}, and at most {4}",
    }
}

/// What else is said of it.
fn more_of(fault: PlanFault) -> &'static str {
    match fault {
        PlanFault::Version =>
            "2 has self test, self reception and listen only beside 1; 3 has \"interrupt\" and room for more",
        PlanFault::StrikeCount => "\"K B E T\" counts T, and any other text counts 1",
        _ => "",
    }
}
