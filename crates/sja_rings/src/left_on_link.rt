//! What was left on a link.

ghost use Rattle.std.specs.Prelude.{◌≡◌, ◌↔◌, ◌++◌, IsOk, IfOk};
ghost use Rattle.rtrb.specs.Ring.{received, all_sent, consumer_capacity, IsFinishedOf};
ghost use Rattle.sja_journal.specs.Lists.{Lists};
ghost use Rattle.sja_rings.specs.Ended.{OneEnded, HasBusNote, HasDriverNote, EndedBusLists, EndedDriverLists};
ghost use Rattle.sja_rings.specs.Left.{IsLeft};

use super::ended_bus::EndedBus;
use super::ended_driver::EndedDriver;
use super::missing_note::MissingNote;
use super::remainder::Remainder;
use arrayvec::ArrayVec;
use rtrb::{Consumer, Finished};
use sja_journal::{Down, ITEMS_DOWN, ITEMS_UP, Up};

/// What was left on a link, once both ends have done their last act: what was got and then this is what was put, and
/// what was taken and then this is what was given. Both ends come from one [`ring_pair`](crate::ring_pair), and may
/// have been in any thread.
///
/// Error: [`MissingNote`] where a ring gave no closing note.
pub fn settle(bus: EndedBus, driver: EndedDriver) -> Result<Remainder, MissingNote>
    requires { OneEnded bus driver }
    ensures settled { IsOk result ↔ (HasBusNote bus × HasDriverNote driver) }
    ensures left { IfOk result (λ s. (l : Lists) → EndedBusLists bus l → EndedDriverLists driver l → IsLeft s l) }
{
    let EndedBus {
        note: down_note,
        up,
    } = bus;
    let EndedDriver {
        down,
        note: up_note,
    } = driver;
    let Some(down_note) = down_note else {
        return Err(MissingNote);
    };
    let Some(up_note) = up_note else {
        return Err(MissingNote);
    };
    Ok(Remainder {
        down: left::<Down, ITEMS_DOWN>(down, down_note),
        up: left::<Up, ITEMS_UP>(up, up_note),
    })
}

/// Takes all that is left in a ring.
fn left<T: Default + Drop, const CAP: usize>(
    mut consumer: Consumer<T>,
    mut finished: Finished<T>,
) -> ArrayVec<T, CAP>
    requires ring { IsFinishedOf finished consumer }
    requires size { consumer_capacity consumer ≡ CAP }
    ensures { received consumer ++ result.items ≡ all_sent finished }
{
    let mut items = ArrayVec::new();
    let count = consumer.slots_after(&mut finished);
    for _ in 0..count {
        items.push(consumer.pop_known());
    }
    items
}
