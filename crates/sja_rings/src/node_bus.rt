//! The bus's end of a node's links, each of two rings.

use super::places::place_of;
use super::ring_bus::RingBus;
use sja_journal::{Down, Up};
use sja_link::BusEnd;

/// The bus's end of a node's links (this project's own rule): an end of a link of two rings for each activation from 1
/// on, as many as there are. It is the bus's end of no other link: there it gives each item back, and shows nothing.
#[derive(Drop)]
pub struct NodeBus {
    pub(crate) node: u8,
    pub(crate) rings: Vec<RingBus>,
}

impl BusEnd for NodeBus {
    ghost use Rattle.std.proofs.Common.{◌∙◌, refl};
    ghost use Rattle.lemmas.proofs.Related.{each_refl, each_trans};
    ghost use Rattle.sja_rings.specs.Ends.{SameBus};
    ghost use Rattle.sja_rings.specs.NodeRings.{node_of_bus, links_of_bus, rings_of_bus, NodeBusLists, SameNodeBus};
    ghost use Rattle.sja_rings.specs.NodeRings.{HasNoPlaceDown, ShowsNothingUp};
    ghost use Rattle.sja_rings.specs.Carrying.{bus_refl, bus_trans, as_many_links};

    ghost node = { node_of_bus };

    ghost links = { links_of_bus };

    ghost stands = { NodeBusLists };

    ghost same = { SameNodeBus };

    ghost full = { HasNoPlaceDown };

    ghost dry = { ShowsNothingUp };

    fn node(&self) -> u8 {
        self.node
    }

    fn links(&self) -> u64 {
        self.rings.len() as u64
    }

    fn put(&mut self, activation: u64, item: Down) -> Result<(), Down> {
        match place_of(activation, self.rings.len()) {
            Some(place) => self.rings[place].put(item),
            None => Err(item),
        }
    }

    fn take(&mut self, activation: u64) -> Option<Up> {
        match place_of(activation, self.rings.len()) {
            Some(place) => self.rings[place].take(),
            None => None,
        }
    }

    ghost same_refl = { λ b. (refl, each_refl SameBus bus_refl (rings_of_bus b)) };

    ghost same_trans = { λ a b c p q.
        (q.0 ∙ p.0, each_trans SameBus bus_trans (rings_of_bus a) (rings_of_bus b) (rings_of_bus c) p.1 q.1) };

    ghost same_node = { λ a b p. p.0 };

    ghost same_links = { as_many_links };
}

impl NodeBus {
    ghost use Rattle.std.specs.Prelude.{◌≡◌};
    ghost use Rattle.sja_rings.specs.NodeRings.{rings_of_bus};

    /// Its ends of the links, by activation.
    pub fn into_rings(self) -> Vec<RingBus>
        ensures { result.items ≡ rings_of_bus self }
    {
        self.rings
    }
}
