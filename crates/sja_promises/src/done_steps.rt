//! Steps done, copied from the log of a driver.

ghost use Rattle.std.specs.Prelude.{◌≡◌, IfOk};

use can_frame::OutOfMemory;
use sja_steps::StepRecord;
use std::alloc::Global;

/// The same steps done.
///
/// Error: [`OutOfMemory`] where memory was refused.
pub(crate) fn all_copied(alloc: Global, done: &[StepRecord]) -> Result<Vec<StepRecord>, OutOfMemory>
    ensures { IfOk result (λ list. list.items ≡ done.now) }
{
    let mut list = Vec::with_capacity(alloc, done.len())?;
    for one in done {
        let answer = one.answer.copy();
        list.push_reserved(StepRecord {
            answer,
            bits: one.bits,
        });
    }
    Ok(list)
}
