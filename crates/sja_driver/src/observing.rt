//! A look at the messages that have come, which is no step: the log has nothing of it.

ghost use Rattle.std.specs.Prelude.{◌≡◌, None};
ghost use Rattle.sja_journal.specs.Lists.{OthersStand};
ghost use Rattle.sja_driver.specs.AnyDrivers.{link_used, seen_by};
ghost use Rattle.sja_driver.specs.Inside.Attempts.{FitsEnd};
ghost use Rattle.sja_driver.specs.LoggedDrivers.{driver_of, StaysLawful};
ghost use Rattle.sja_driver.specs.Observing.{MayObserve, Observes, Looked};

use super::any_driver::AnyDriver;
use super::logged_driver::LoggedDriver;
use can_frame::BufferView;
use sja_link::DriverEnd;

impl LoggedDriver {
    /// What a read of the registers sees of the messages, once all that the link of the present activation shows is
    /// taken in. It is no step.
    pub fn seen<E: DriverEnd>(&mut self, end: &mut E) -> BufferView
        requires { MayObserve E.node self.old end.old }
        ensures seen { result ≡ seen_by (driver_of self.new) }
        ensures looked { Looked E.stands E.dry self.old self.new end.old end.new }
        ensures stays { StaysLawful E.same E.stands self.old self.new end.old end.new None }
    {
        observe(&mut self.driver, end)
    }
}

/// Takes in all that the link shows, out of reset, and answers what a read of the registers sees then.
#[inline(always)]
pub(crate) fn observe<E: DriverEnd>(driver: &mut AnyDriver, end: &mut E) -> BufferView
    requires { FitsEnd E.node end.old driver.old }
    ensures same { E.same end.old end.new }
    ensures others { OthersStand E.stands (link_used driver.old) end.old end.new }
    ensures observes { Observes E.stands E.dry end.old end.new driver.old driver.new }
    ensures seen { result ≡ seen_by driver.new }
{
    match driver {
        AnyDriver::InReset(_) => BufferView {
            first: None,
            count: 0,
        },
        AnyDriver::InActive(driver) => {
            let _ = driver.look(end);
            driver.state.ledger.seen()
        }
    }
}
