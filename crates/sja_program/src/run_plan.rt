//! The plan to run, of the bytes of a document.

ghost use Rattle.std.specs.Prelude.{◌≡◌, ℕ, List, false, IfOk, IfErr};
ghost use Rattle.sja_placed_strikes.specs.PlanRead.{IsRunPlan, IsReadFault};
ghost use Rattle.sja_plan_reading.specs.DocumentLimits.{begins_by_bytes};
ghost use Rattle.sja_program.specs.Run.{RefusesRunPlan};
ghost use Rattle.sja_program.specs.Denials.{DeniesOf};

use super::mistaken::mistaken;
use super::unanswered::Unanswered;
use sja_placed_strikes::{PlaceFault, ReadFault, plan_of};
use sja_plan::Plan;
use sja_plan_reading::{MOST_BYTES, most_bytes};
use std::alloc::Global;
use text_codec::CommandRefusal;

/// The plan that these bytes are, with each of its strikes by place at its bit.
///
/// Errors: [`Unanswered::Mistaken`] where they are none, or a strike has no bit, and they say version 3 before all
/// other keys. Of other bytes [`CommandRefusal::Plan`] where they are none; [`CommandRefusal::Place`] where the run has
/// no place of a strike; [`CommandRefusal::Strikes`] where these are too many. [`CommandRefusal::OutOfMemory`].
pub fn plan_in(alloc: Global, bytes: &[u8]) -> Result<Plan, Unanswered>
    ensures ok { IfOk result (IsRunPlan bytes.now) }
    ensures err { IfErr result (DeniesOf (RefusesRunPlan bytes.now) bytes.now) }
{
    match plan_of(alloc, bytes) {
        Ok(plan) => Ok(plan),
        Err(fault) => Err(unanswered(alloc, bytes, fault)),
    }
}

/// Why these bytes are no plan whose strikes all have bits, by this fault of them.
fn unanswered(alloc: Global, bytes: &[u8], fault: ReadFault) -> Unanswered
    requires { IsReadFault bytes.now fault }
    ensures { DeniesOf (RefusesRunPlan bytes.now) bytes.now result }
{
    if !by_bytes(bytes) {
        return Unanswered::Refused(refusal_of(fault));
    }
    match mistaken(alloc, bytes, fault) {
        Ok(text) => Unanswered::Mistaken(text),
        Err(_) => Unanswered::Refused(CommandRefusal::OutOfMemory),
    }
}

/// Whether a document says its version 3 before all other keys.
#[tactic(auto, using(crate::proofs::PlanAnswers::Places::by_bytes))]
fn by_bytes(bytes: &[u8]) -> bool
    ensures { result ≡ begins_by_bytes bytes.now }
{
    most_bytes(bytes) > MOST_BYTES
}

/// What is said in one line where bytes are no plan whose strikes all have bits.
#[tactic(auto, using(crate::proofs::PlanAnswers::Places::places))]
fn refusal_of(fault: ReadFault) -> CommandRefusal
    ensures { (bytes : List ℕ) → IsReadFault bytes fault → begins_by_bytes bytes ≡ false → RefusesRunPlan bytes result }
{
    match fault {
        ReadFault::Plan(fault) => CommandRefusal::Plan(fault),
        ReadFault::Place(PlaceFault::NoPlace(number, _, _)) => CommandRefusal::Place(number),
        ReadFault::Place(PlaceFault::StrikeCount) => CommandRefusal::Strikes,
        ReadFault::Place(PlaceFault::Run(_) | PlaceFault::Memory) => CommandRefusal::OutOfMemory,
    }
}
