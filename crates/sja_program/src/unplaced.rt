//! What `check` says where a strike by place has no bit.

ghost use Rattle.std.specs.Prelude.{◌≡◌, ◌++◌, ℕ, List, string_bytes, IfOk};
ghost use Rattle.text_codec.specs.Refusal.{refusal_line};
ghost use Rattle.sja_placed_strikes.specs.PlanRead.{IsReadFault};
ghost use Rattle.sja_placed_strikes.specs.declared.read_fault.ReadFault.TheVariants.{Place};
ghost use Rattle.sja_program.specs.Check.{IsExplained};

use can_frame::OutOfMemory;
use sja_check::{misplaced, too_many_places};
use sja_placed_strikes::PlaceFault;
use std::alloc::Global;
use text_codec::CommandRefusal;

/// The line that stands for a strike by place that has no bit, and then what explains it.
///
/// Error: [`OutOfMemory`] where memory was refused.
#[tactic(auto, using(crate::proofs::PlanAnswers::Places::places))]
pub(crate) fn unplaced(
    alloc: Global,
    bytes: &[u8],
    fault: PlaceFault,
) -> Result<Vec<u8>, OutOfMemory>
    ensures { IfOk result (λ text. (held : List ℕ) → IsReadFault held (Place fault) → IsExplained held text.items) }
{
    match fault {
        PlaceFault::NoPlace(number, frames, last) => {
            let words = misplaced(alloc, bytes, number, frames, last)?;
            said_before(alloc, CommandRefusal::Place(number), words)
        }
        PlaceFault::StrikeCount => {
            let words = too_many_places(alloc)?;
            said_before(alloc, CommandRefusal::Strikes, words)
        }
        PlaceFault::Run(_) | PlaceFault::Memory => Err(OutOfMemory),
    }
}

/// The line of a refusal, and these words behind it.
///
/// Error: [`OutOfMemory`] where memory was refused.
fn said_before(
    alloc: Global,
    refusal: CommandRefusal,
    words: String,
) -> Result<Vec<u8>, OutOfMemory>
    ensures { IfOk result (λ text. text.items ≡ refusal_line refusal ++ string_bytes words) }
{
    let text = format!(in alloc; "sja: {refusal}\n{words}")?;
    Ok(text.into_bytes())
}
