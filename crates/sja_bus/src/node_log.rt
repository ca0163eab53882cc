//! What is left of a controller at the end of a run.

ghost use Rattle.std.specs.Prelude.{◌≡◌, ◌≤◌, [], vec_len, vec_capacity, IfOk, OnOk, OnErr};
ghost use Rattle.lemmas.specs.Related.{EachRelated};
ghost use Rattle.std.specs.List.{All};
ghost use Rattle.sja_journal.specs.BoundedHistories.{KeepsAll};
ghost use Rattle.sja_bus.specs.Inside.Ending.{IsLog};

use super::bus_node::BusNode;
use sja_bus_rules::NodeLog;
use sja_journal::Endless;

/// What is left of all nodes, in order.
///
/// Error: [`Endless`] where a journal was made for more entries than it keeps.
pub(crate) fn logs_of(bus_nodes: Vec<BusNode>, logs: Vec<NodeLog>) -> Result<Vec<NodeLog>, Endless>
    requires none { logs.items ≡ [] }
    requires room { vec_len bus_nodes ≤ vec_capacity logs }
    ensures logs { IfOk result (λ all. EachRelated IsLog bus_nodes.items all.items) }
    ensures kept { OnOk result (All (λ s. KeepsAll s.journal.room.all) bus_nodes.items) }
    ensures endless { OnErr result (All (λ s. KeepsAll s.journal.room.all) bus_nodes.items → ⊥) }
{
    let mut logs = logs;
    for bus_node in bus_nodes {
        logs.push_reserved(bus_node.into_log()?);
    }
    Ok(logs)
}

impl BusNode {
    ghost use Rattle.std.specs.Prelude.{IfOk, OnOk, OnErr};
    ghost use Rattle.sja_journal.specs.BoundedHistories.{KeepsAll};
    ghost use Rattle.sja_bus.specs.Inside.Ending.{IsLog};

    /// What is left of the node at the end of a run.
    ///
    /// Error: [`Endless`] where its journal was made for more entries than it keeps.
    fn into_log(self) -> Result<NodeLog, Endless>
        ensures log { IfOk result (λ log. IsLog self log) }
        ensures kept { OnOk result (KeepsAll self.journal.room.all) }
        ensures endless { OnErr result (KeepsAll self.journal.room.all → ⊥) }
    {
        let BusNode { node, journal, .. } = self;
        let counters = node.counters();
        let journal = journal.into_journal()?;
        Ok(NodeLog {
            journal,
            txerr: counters.tec.min(255) as u8,
            rxerr: counters.rec,
        })
    }
}
