//! The bus's end of a link after its last act.

ghost use Rattle.std.specs.Prelude.{◌≡◌};
ghost use Rattle.rtrb.specs.Ring.{consumer_capacity};
ghost use Rattle.sja_journal.specs.declared.sizes.TheConstants.{ITEMS_UP};

use rtrb::{Consumer, Finished};
use sja_journal::{Down, Up};

/// The bus's end of a link of two rings after its last act (this project's own rule): nothing is put any more.
///
/// It keeps the closing note of its ring down, if the ring gave one, and its end of the ring up.
#[derive(Drop)]
pub struct EndedBus {
    pub(crate) note: Option<Finished<Down>>,
    pub(crate) up: Consumer<Up>,
    ghost size: { consumer_capacity up ≡ ITEMS_UP },
}
