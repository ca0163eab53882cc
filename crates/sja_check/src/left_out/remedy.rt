//! What to do about a refused step.

use super::starts::Starts;
use sja_plan::FIRST_BY_BYTES;
use sja_steps::{Refusal, Step};

/// What to do about a step that was refused so in this version, in a node whose starts have come to this (the table of
/// refused steps in docs/use/SEEN.md).
pub(crate) fn remedy_of(
    refusal: Refusal,
    version: u8,
    step: &Step,
    starts: Starts,
) -> &'static str {
    match refusal {
        Refusal::WrongState => state_remedy(step, starts),
        Refusal::NoActivationLeft if version < FIRST_BY_BYTES => "a node has eight starts",
        Refusal::NoActivationLeft => "a node has 64 starts",
        Refusal::Empty => "no message is there; let the bus run",
        Refusal::Stopped => "bus-off came: \"stop\", then \"start\"",
        Refusal::ActiveOnly => "bus-off came: \"stop\", then \"start\"",
        Refusal::Locked => "a request is open; put \"sent\" before",
        Refusal::UseTyped => typed_remedy(step),
        Refusal::ResetOnly => "only before \"start\" or after \"stop\"",
        Refusal::NotInVersion => "it needs version = 2",
        Refusal::ListenOnly => "\"stop\", bit 1 of MOD to 0, \"start\"",
        Refusal::ReadOnly => "that register can't be written",
        Refusal::NoRegister => register_remedy(step),
        Refusal::Closed => "the bits were spent",
    }
}

/// What to do about a step that needs the other state.
fn state_remedy(step: &Step, starts: Starts) -> &'static str {
    match (step, starts) {
        (Step::Start, _) => "put \"stop\" before it",
        (_, Starts::NoneYet) => "put \"start\" before it",
        (_, Starts::Begun) => "put \"start\" again before it",
        (_, Starts::Spent) => "no start of the node is left",
    }
}

/// Which step does what this one tried.
fn typed_remedy(step: &Step) -> &'static str {
    match step {
        Step::Write(0, _) => "only \"start\" and \"stop\" change bit 0",
        Step::Write(_, _) => "write CMR by \"command VALUE\"",
        _ => "bit 2 of CMR is the step \"release\"",
    }
}

/// Which registers there are.
fn register_remedy(step: &Step) -> &'static str {
    match step {
        Step::Read(1) => "CMR can't be read",
        Step::Read(6 | 7 | 8 | 31) | Step::Write(6 | 7 | 8 | 31, _) =>
            "BTR0, BTR1, OCR, CDR are left out",
        _ => "no register; addresses are decimal",
    }
}
