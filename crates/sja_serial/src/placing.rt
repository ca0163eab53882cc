//! Where the nodes of a run are in a frame, and bits up to a place.

use super::place_names::named;
use super::serial_run::SerialRun;
use sja_plan::Place;

impl SerialRun {
    ghost use Rattle.std.specs.Prelude.{◌≡◌, ◌<◌, Some, List, true, false};
    ghost use Rattle.sja_driver.specs.TypedActs.{TypedAct};
    ghost use Rattle.sja_serial.specs.SerialPlaces.{IsElsewhere, IsPlace, TakesTo};
    ghost use Rattle.sja_serial.specs.Serial.{Setup, StandsAt, IsRunOf};
    ghost use Rattle.sja_bus_rules.specs.Wire.{journal_at};

    /// The place of the next bit of a node, counted from 0, in a frame: by what it sends or has read of one so far.
    /// None where it has none there.
    pub fn place(&self, node: u8) -> Option<Place>
        ghost setup: { Setup }
        requires run { IsRunOf setup self.now }
        requires node { node < setup.nodes }
        ensures { IsPlace (journal_at self.now.bus.journals node) result }
    {
        match self.bus.place(usize::from(node)) {
            Some(place) => Some(named(place)),
            None => None,
        }
    }

    /// Whether the next bit of a node is at this place.
    fn is_at(&self, node: u8, place: Place) -> bool
        ghost setup: { Setup }
        requires run { IsRunOf setup self.now }
        requires node { node < setup.nodes }
        ensures yes { result ≡ true → IsPlace (journal_at self.now.bus.journals node) (Some place) }
        ensures no { result ≡ false → IsElsewhere node place self.now }
    {
        match self.place(node) {
            Some(other) => other == place,
            None => false,
        }
    }

    /// Bits up to the one before which a node's next bit is at a place, so many at most, and as many as are left; none
    /// where it is there already. It says how many, and whether it came there.
    pub fn place_turn(&mut self, node: u8, place: Place, limit: u32) -> (u32, bool)
        ghost setup: { Setup }
        requires run { IsRunOf setup self.old }
        requires node { node < setup.nodes }
        ensures to { (acts : List (List TypedAct)) → StandsAt setup self.old acts →
            TakesTo setup acts node place limit (result.0) (result.1) self.old self.new }
        ensures stays { IsRunOf setup self.new }
    {
        let mut run = 0;
        while !self.is_at(node, place) {
            if run >= limit || self.bits_left() == 0 {
                return (run, false);
            }
            self.run_one_bit();
            run += 1;
        }
        (run, true)
    }
}
