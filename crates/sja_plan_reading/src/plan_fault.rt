//! Why bytes are no plan.

use std::alloc::{AllocError, AllocFailed};
use std::fmt;
use thiserror::Error;

/// Why bytes are no plan.
///
/// The checks stand here in their order, and the first one that fails is told. [`PlanFault::Memory`] is told wherever
/// memory was refused.
#[derive(Clone, Copy, Debug, PartialEq, Eq, Error)]
pub enum PlanFault {
    /// There are more bytes than a document may have: 65,536, or 16 MiB where it says version 3 before all other keys.
    TooLong,
    /// The bytes are no UTF-8.
    NotText,
    /// The text is no TOML document.
    Toml,
    /// A key is unknown or missing, or its value has the wrong kind.
    Key,
    /// The version isn't one from 1 to 3.
    Version,
    /// The number of bits isn't one from 1 to 200,000, or to 2,000,000 in version 3.
    Bits,
    /// The number of nodes isn't one from 1 to 8.
    NodeCount,
    /// A node has more than 1,000 steps, or 65,535 in version 3.
    StepCount,
    /// The text of a step says none: its node, counted from 0, and its number there, counted from 1.
    Step(usize, usize),
    /// There are more than 10,000 turns, or 200,000 in version 3.
    TurnCount,
    /// The text of a turn says none, or names a node that isn't there: its number, counted from 1.
    Turn(usize),
    /// The texts of strikes count for more than 1,000, or 100,000 in version 3.
    StrikeCount,
    /// The text of a strike says none, or names a node that isn't there: its number, counted from 1.
    Strike(usize),
    /// Memory was refused.
    Memory,
}

impl fmt::Display for PlanFault {
    fn fmt<W: fmt::Write>(&self, f: &mut fmt::Formatter<W>) -> fmt::Result {
        match *self {
            PlanFault::Step(node, number) => write!(
                f,
                "step {number} of node {node} can't be read"
            ),
            PlanFault::Turn(number) => fmt_number(f, "turn", number),
            PlanFault::Strike(number) => fmt_number(f, "strike", number),
            fault => f.write_str(text_of(fault)),
        }
    }
}

/// What is said of the text of this number.
fn fmt_number<W: fmt::Write>(f: &mut fmt::Formatter<W>, name: &str, number: usize) -> fmt::Result {
    write!(f, "{name} {number} can't be read")
}

/// What is said of a fault without its numbers.
fn text_of(fault: PlanFault) -> &'static str {
    match fault {
        PlanFault::TooLong => {
            "the plan has more than 65536 bytes, or than 16777216 where version = 3 stands before all other keys"
        }
        PlanFault::NotText => "the plan is no UTF-8",
        PlanFault::Toml => "the plan is no TOML document",
        PlanFault::Key => "a key is unknown, missing or of the wrong kind",
        PlanFault::Version => "the version isn't one from 1 to 3",
        PlanFault::Bits =>
            "the number of bits isn't one from 1 to 200000, or to 2000000 in version 3",
        PlanFault::NodeCount => "the number of nodes isn't one from 1 to 8",
        PlanFault::StepCount => "a node has more than 1000 steps, or 65535 in version 3",
        PlanFault::Step(_, _) => "a step can't be read",
        PlanFault::TurnCount => "there are more than 10000 turns, or 200000 in version 3",
        PlanFault::Turn(_) => "a turn can't be read",
        PlanFault::StrikeCount => "there are more than 1000 strikes, or 100000 in version 3",
        PlanFault::Strike(_) => "a strike can't be read",
        PlanFault::Memory => "out of memory",
    }
}

impl From<AllocError> for PlanFault {
    ghost use Rattle.std.specs.Prelude.{◌≡◌};
    ghost use Rattle.sja_plan_reading.specs.declared.plan_fault.PlanFault.TheVariants.{Memory};

    ghost from_gives = { λ _ e. e ≡ Memory };

    fn from(_error: AllocError) -> PlanFault {
        PlanFault::Memory
    }
}

impl<T: Drop> From<AllocFailed<T>> for PlanFault {
    ghost use Rattle.std.specs.Prelude.{◌≡◌};
    ghost use Rattle.sja_plan_reading.specs.declared.plan_fault.PlanFault.TheVariants.{Memory};

    ghost from_gives = { λ _ e. e ≡ Memory };

    fn from(_error: AllocFailed<T>) -> PlanFault {
        PlanFault::Memory
    }
}
