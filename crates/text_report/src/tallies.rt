//! One pass over a journal.

ghost use Rattle.std.specs.Prelude.{◌≡◌, ◌<◌, ◌+◌, ◌^◌, All, map, IfOk};
ghost use Rattle.sja_journal.specs.Between.{between_bits};
ghost use Rattle.text_report.specs.Inside.Tallies.{tally_value, no_tally, opens, tallied};

use super::tally::Tally;
use sja_journal::{Entry, Journal, Up};
use std::alloc::{AllocError, Global};
use std::mem;

/// Whether an entry begins an activation.
fn opens(entry: &Entry) -> bool
    ensures { result ≡ opens entry.now }
{
    matches!(entry, Entry::Up(Up::Start(_)))
}

/// What the entries before the first start come to, and those of each activation.
pub(crate) fn tallies_of(alloc: Global, journal: &Journal) -> Result<Vec<Tally>, AllocError>
    ensures value { IfOk result (λ ts. map tally_value ts.items ≡ tallied no_tally (between_bits journal.now.entries)) }
{
    let mut ended = Vec::new(alloc);
    let mut tally = Tally::new(alloc);
    for entry in journal.between_bits() {
        if opens(&entry) {
            ended.push(mem::replace(&mut tally, Tally::new(alloc)))?;
        } else {
            tally.enter(entry)?;
        }
    }
    ended.push(tally)?;
    Ok(ended)
}
