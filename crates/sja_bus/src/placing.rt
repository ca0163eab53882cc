//! Where the nodes of a bus are in a frame.

use super::bus::Bus;
use can_node_rules::NodePlace;

impl Bus {
    ghost use Rattle.std.specs.Prelude.{◌≡◌, ◌<◌, None, length};
    ghost use Rattle.sja_journal.specs.Records.{record_of};
    ghost use Rattle.sja_bus_rules.specs.Wire.{journal_at};
    ghost use Rattle.sja_bus.specs.BusPlaces.{HasPlace};

    /// The place of a node's next bit in a frame, as the cut of its record has it; none where it has none there.
    pub fn place(&self, node: usize) -> Option<NodePlace>
        requires { node < length self.now.journals }
        ensures { self.now.fault ≡ None → HasPlace (record_of (journal_at self.now.journals node)) result }
    {
        self.bus_nodes[node].node.place()
    }
}
