//! The driver's end of a node's links, each of two rings.

use super::places::place_of;
use super::ring_driver::RingDriver;
use sja_journal::{Down, Up};
use sja_link::DriverEnd;

/// The driver's end of a node's links (this project's own rule): an end of a link of two rings for each activation from
/// 1 on, as many as there are. It is the driver's end of no other link: there it shows nothing, and gives each item
/// back.
#[derive(Drop)]
pub struct NodeDriver {
    pub(crate) node: u8,
    pub(crate) rings: Vec<RingDriver>,
}

impl DriverEnd for NodeDriver {
    ghost use Rattle.std.proofs.Common.{◌∙◌, refl};
    ghost use Rattle.lemmas.proofs.Related.{each_refl, each_trans};
    ghost use Rattle.sja_rings.specs.Ends.{SameDriver};
    ghost use Rattle.sja_rings.specs.NodeRings.{node_of_driver, rings_of_driver, NodeDriverLists, SameNodeDriver};
    ghost use Rattle.sja_rings.specs.NodeRings.{HasNoPlaceUp, ShowsNothingDown};
    ghost use Rattle.sja_rings.specs.Carrying.{driver_refl, driver_trans};

    ghost node = { node_of_driver };

    ghost stands = { NodeDriverLists };

    ghost same = { SameNodeDriver };

    ghost dry = { ShowsNothingDown };

    ghost full = { HasNoPlaceUp };

    fn node(&self) -> u8 {
        self.node
    }

    fn get(&mut self, activation: u64) -> Option<Down> {
        match place_of(activation, self.rings.len()) {
            Some(place) => self.rings[place].get(),
            None => None,
        }
    }

    fn give(&mut self, activation: u64, item: Up) -> Result<(), Up> {
        match place_of(activation, self.rings.len()) {
            Some(place) => self.rings[place].give(item),
            None => Err(item),
        }
    }

    ghost same_refl = { λ d. (refl, each_refl SameDriver driver_refl (rings_of_driver d)) };

    ghost same_trans = { λ a b c p q. (
      q.0 ∙ p.0,
      each_trans SameDriver driver_trans (rings_of_driver a) (rings_of_driver b) (rings_of_driver c) p.1 q.1,
    ) };

    ghost same_node = { λ a b p. p.0 };
}

impl NodeDriver {
    ghost use Rattle.std.specs.Prelude.{◌≡◌};
    ghost use Rattle.sja_rings.specs.NodeRings.{rings_of_driver};

    /// Its ends of the links, by activation.
    pub fn into_rings(self) -> Vec<RingDriver>
        ensures { result.items ≡ rings_of_driver self }
    {
        self.rings
    }
}
