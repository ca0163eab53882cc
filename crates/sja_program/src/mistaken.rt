//! The mistake of a document, in words.

ghost use Rattle.std.specs.Prelude.{◌≡◌, ◌++◌, ℕ, List, IfOk};
ghost use Rattle.sja_check.specs.Lines.{IsBrief};
ghost use Rattle.sja_placed_strikes.specs.PlanRead.{IsReadFault};
ghost use Rattle.text_codec.specs.Refusal.{refusal_line};
ghost use Rattle.text_codec.specs.declared.command_refusal.CommandRefusal.TheVariants as refusal;
ghost use Rattle.sja_program.specs.Check.{IsExplained};

use super::unplaced::unplaced;
use can_frame::OutOfMemory;
use sja_check::mistake;
use sja_placed_strikes::ReadFault;
use sja_plan_reading::PlanFault;
use std::alloc::Global;
use text_codec::CommandRefusal;

/// What `check` says of this fault of these bytes, or of a strike by place that has no bit: the line that stands for it
/// alone, and then what explains it.
///
/// Error: [`OutOfMemory`] where memory was refused, now or before.
#[tactic(auto, using(crate::proofs::PlanAnswers::Places::places))]
pub(crate) fn mistaken(
    alloc: Global,
    bytes: &[u8],
    fault: ReadFault,
) -> Result<Vec<u8>, OutOfMemory>
    ensures { IfOk result (λ text. (held : List ℕ) → IsReadFault held fault → IsExplained held text.items) }
{
    match fault {
        ReadFault::Plan(PlanFault::Memory) => Err(OutOfMemory),
        ReadFault::Plan(fault) => explained(alloc, bytes, fault),
        ReadFault::Place(fault) => unplaced(alloc, bytes, fault),
    }
}

/// The line of a fault of these bytes, and then what explains it.
///
/// Error: [`OutOfMemory`] where memory was refused.
fn explained(alloc: Global, bytes: &[u8], fault: PlanFault) -> Result<Vec<u8>, OutOfMemory>
    ensures { IfOk result (λ text. (words : List ℕ)
        × (text.items ≡ refusal_line (refusal.Plan fault) ++ words) × IsBrief words) }
{
    let words = mistake(alloc, bytes, fault)?;
    let text = format!(in alloc; "sja: {}\n{words}", CommandRefusal::Plan(fault))?;
    Ok(text.into_bytes())
}
