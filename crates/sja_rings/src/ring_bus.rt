//! The bus's end of a link of two rings.

ghost use Rattle.std.specs.Prelude.{◌≡◌};
ghost use Rattle.rtrb.specs.Ring.{producer_capacity, consumer_capacity};
ghost use Rattle.sja_journal.specs.declared.sizes.TheConstants.{ITEMS_DOWN, ITEMS_UP};

use rtrb::{Consumer, Producer, PushError};
use sja_journal::{Down, Up};
use sja_link::LinkId;

/// The bus's end of a link of two rings (this project's own rule): 22 places down, 24 up.
///
/// It sees the driver's end as it last looked. So it may give an item back although a place has become free since, and
/// show nothing although something was given.
#[derive(Drop)]
pub struct RingBus {
    pub(crate) id: LinkId,
    pub(crate) down: Producer<Down>,
    pub(crate) up: Consumer<Up>,
    ghost sizes: { (producer_capacity down ≡ ITEMS_DOWN) × (consumer_capacity up ≡ ITEMS_UP) },
}

impl RingBus {
    ghost use Rattle.std.specs.Prelude.{◌≡◌, [], IfErr, IfSome, OnOk, OnErr, IfNone};
    ghost use Rattle.sja_journal.specs.Lists.{Lists, with_put, with_taken};
    ghost use Rattle.sja_rings.specs.Ends.{link_of_bus, BusLists, SameBus, places_down, shown_up};

    /// Which link it is of. Tests alone ask.
    pub fn id(&self) -> LinkId
        ensures { result ≡ link_of_bus self.now }
    {
        self.id
    }

    /// Puts an item, or gives it back where it knows of no free place. The end of [a node](crate::NodeBus) calls it,
    /// and tests do.
    pub fn put(&mut self, item: Down) -> Result<(), Down>
        ensures same { SameBus self.old self.new }
        ensures put { OnOk result ((l : Lists) → BusLists self.old l → BusLists self.new (with_put l item)) }
        ensures back { IfErr result (λ x. x ≡ item) }
        ensures kept { OnErr result ((l : Lists) → BusLists self.old l → BusLists self.new l) }
        ensures full { OnErr result (places_down self.old ≡ 0) }
    {
        match self.down.push(item) {
            Ok(()) => Ok(()),
            Err(PushError::Full(item)) => Err(item),
        }
    }

    /// Takes the next item that was given; none where it has seen nothing that it didn't take. The end of
    /// [a node](crate::NodeBus) calls it, and tests do.
    pub fn take(&mut self) -> Option<Up>
        ensures same { SameBus self.old self.new }
        ensures item { IfSome result (λ x. (l : Lists) → BusLists self.old l → BusLists self.new (with_taken l x)) }
        ensures kept { IfNone result ((l : Lists) → BusLists self.old l → BusLists self.new l) }
        ensures dry { IfNone result (shown_up self.new ≡ []) }
    {
        self.up.pop().ok()
    }
}
