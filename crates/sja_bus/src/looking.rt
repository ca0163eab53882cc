//! What is seen of the nodes of a bus between its bits.

use super::bus::Bus;
use super::idle_bits::are_at_rest;

impl Bus {
    ghost use Rattle.std.specs.Prelude.{◌≡◌, ◌≢◌, ◌<◌, ℕ, None, true, false, length};
    ghost use Rattle.sja_journal.specs.Places.{place_of};
    ghost use Rattle.sja_journal.specs.Records.{record_of};
    ghost use Rattle.sja_bus_rules.specs.Lawful.{IsBusRun};
    ghost use Rattle.sja_bus_rules.specs.Wire.{journal_at};
    ghost use Rattle.sja_bus.specs.BusRest.{RestsAs};

    /// Whether every node is at rest: in reset, or idle with no request. What holds of every bus is said beside it.
    pub fn at_rest(&self) -> bool
        ensures lawful { self.now.fault ≡ None → IsBusRun self.now.script self.now.run self.now.journals }
        ensures rest { self.now.fault ≡ None → result ≡ true → (node : ℕ) → node < length self.now.journals →
            RestsAs (record_of (journal_at self.now.journals node)) true }
        ensures busy { self.now.fault ≡ None → result ≡ false → (node : ℕ) × (node < length self.now.journals)
            × RestsAs (record_of (journal_at self.now.journals node)) false }
    {
        are_at_rest(self.bus_nodes.as_slice())
    }

    /// Whether a start of this node was taken; not where there is no such node.
    pub fn started(&self, node: u8) -> bool
        ensures yes { self.now.fault ≡ None → result ≡ true → (node < length self.now.journals)
            × ((place_of (journal_at self.now.journals node)).activation ≢ 0) }
        ensures no { self.now.fault ≡ None → result ≡ false → node < length self.now.journals →
            (place_of (journal_at self.now.journals node)).activation ≡ 0 }
    {
        let place = usize::from(node);
        if place >= self.bus_nodes.len() {
            return false;
        }
        self.bus_nodes[place].has_begun()
    }
}
