//! The driver's end of a link after its last act.

ghost use Rattle.std.specs.Prelude.{◌≡◌};
ghost use Rattle.rtrb.specs.Ring.{consumer_capacity};
ghost use Rattle.sja_journal.specs.declared.sizes.TheConstants.{ITEMS_DOWN};

use rtrb::{Consumer, Finished};
use sja_journal::{Down, Up};

/// The driver's end of a link of two rings after its last act (this project's own rule): nothing is given any more.
///
/// It keeps its end of the ring down, and the closing note of its ring up, if the ring gave one.
#[derive(Drop)]
pub struct EndedDriver {
    pub(crate) down: Consumer<Down>,
    pub(crate) note: Option<Finished<Up>>,
    ghost size: { consumer_capacity down ≡ ITEMS_DOWN },
}
