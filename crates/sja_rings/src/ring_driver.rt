//! The driver's end of a link of two rings.

ghost use Rattle.std.specs.Prelude.{◌≡◌};
ghost use Rattle.rtrb.specs.Ring.{producer_capacity, consumer_capacity};
ghost use Rattle.sja_journal.specs.declared.sizes.TheConstants.{ITEMS_DOWN, ITEMS_UP};

use rtrb::{Consumer, Producer, PushError};
use sja_journal::{Down, Up};
use sja_link::LinkId;

/// The driver's end of a link of two rings (this project's own rule): 22 places down, 24 up.
///
/// It sees the bus's end as it last looked. So it may give an item back although a place has become free since, and
/// show nothing although something was put.
#[derive(Drop)]
pub struct RingDriver {
    pub(crate) id: LinkId,
    pub(crate) down: Consumer<Down>,
    pub(crate) up: Producer<Up>,
    ghost sizes: { (consumer_capacity down ≡ ITEMS_DOWN) × (producer_capacity up ≡ ITEMS_UP) },
}

impl RingDriver {
    ghost use Rattle.std.specs.Prelude.{◌≡◌, [], IfErr, IfSome, OnOk, OnErr, IfNone};
    ghost use Rattle.sja_journal.specs.Lists.{Lists, with_got, with_given};
    ghost use Rattle.sja_rings.specs.Ends.{link_of_driver, DriverLists, SameDriver, places_up, shown_down};

    /// Which link it is of. Tests alone ask.
    pub fn id(&self) -> LinkId
        ensures { result ≡ link_of_driver self.now }
    {
        self.id
    }

    /// Gets the next item that was put; none where it has seen nothing that it didn't get. The end of
    /// [a node](crate::NodeDriver) calls it, and tests do.
    pub fn get(&mut self) -> Option<Down>
        ensures same { SameDriver self.old self.new }
        ensures item { IfSome result (λ x. (l : Lists) → DriverLists self.old l → DriverLists self.new (with_got l x)) }
        ensures kept { IfNone result ((l : Lists) → DriverLists self.old l → DriverLists self.new l) }
        ensures dry { IfNone result (shown_down self.new ≡ []) }
    {
        self.down.pop().ok()
    }

    /// Gives an item, or it comes back where the end knows of no free place. The end of [a node](crate::NodeDriver)
    /// calls it, and tests do.
    pub fn give(&mut self, item: Up) -> Result<(), Up>
        ensures same { SameDriver self.old self.new }
        ensures given { OnOk result ((l : Lists) → DriverLists self.old l → DriverLists self.new (with_given l item)) }
        ensures back { IfErr result (λ x. x ≡ item) }
        ensures kept { OnErr result ((l : Lists) → DriverLists self.old l → DriverLists self.new l) }
        ensures full { OnErr result (places_up self.old ≡ 0) }
    {
        match self.up.push(item) {
            Ok(()) => Ok(()),
            Err(PushError::Full(item)) => Err(item),
        }
    }
}
