//! Laws of the two ends of a link.

ghost use Rattle.std.specs.Prelude.{◌≡◌, ◌≤◌, length};
ghost use Rattle.sja_journal.specs.declared.sizes.TheConstants.{ITEMS_DOWN, ITEMS_UP};
ghost use Rattle.sja_journal.specs.Lists.{Lists, nothing_yet};
ghost use Rattle.sja_rings.specs.declared.ring_bus.RingBus.{RingBus};
ghost use Rattle.sja_rings.specs.declared.ring_driver.RingDriver.{RingDriver};
ghost use Rattle.sja_rings.specs.declared.ended_bus.EndedBus.{EndedBus};
ghost use Rattle.sja_rings.specs.declared.ended_driver.EndedDriver.{EndedDriver};
ghost use Rattle.sja_rings.specs.Ends.{OneLink, SameBus, SameDriver, BusLists, DriverLists, places_down, places_up};
ghost use Rattle.sja_rings.specs.Ended.{EndsBus, EndsDriver, OneEnded};

/// A law: two ends that came from one `ring_pair` can be settled after their last acts, whatever calls each had before
/// and in whatever thread. Each call leaves an end the same end of the same link.
pub fn ends_of_one_pair_can_be_settled()
    ensures { (bus last_bus : RingBus) (driver last_driver : RingDriver) (ended_bus : EndedBus)
        (ended_driver : EndedDriver) → OneLink bus driver → SameBus bus last_bus → SameDriver driver last_driver →
        EndsBus last_bus ended_bus → EndsDriver last_driver ended_driver → OneEnded ended_bus ended_driver }
{}

/// A law: on a link of two rings the first 22 items that are put never come back, and the first 24 that are given
/// don't.
pub fn the_first_items_never_come_back()
    ensures down { (bus last_bus : RingBus) (l : Lists) → BusLists bus nothing_yet →
        places_down bus ≡ ITEMS_DOWN → SameBus bus last_bus → BusLists last_bus l → places_down last_bus ≡ 0 →
        ITEMS_DOWN ≤ length l.put }
    ensures up { (driver last_driver : RingDriver) (l : Lists) → DriverLists driver nothing_yet →
        places_up driver ≡ ITEMS_UP → SameDriver driver last_driver → DriverLists last_driver l →
        places_up last_driver ≡ 0 → ITEMS_UP ≤ length l.given }
{}
