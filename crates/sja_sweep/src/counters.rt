//! The error counters at the end of a run.

ghost use Rattle.std.specs.Prelude.{◌≡◌, ◌++◌, string_bytes, OnOk};
ghost use Rattle.sja_sweep.specs.Outcome.{counters_item, counters};

use sja_log::NodeRun;
use std::alloc::AllocError;
use std::fmt::Write;

/// The error counters of each node.
pub(crate) fn put_counters(text: &mut String, nodes: &[NodeRun]) -> Result<(), AllocError>
    ensures { OnOk result (string_bytes text.new ≡ string_bytes text.old ++ counters nodes.now) }
{
    for number in 0..nodes.len() {
        put_node_counters(text, number, &nodes[number])?;
    }
    Ok(())
}

/// Those of a node.
fn put_node_counters(text: &mut String, number: usize, node: &NodeRun) -> Result<(), AllocError>
    ensures { OnOk result (string_bytes text.new ≡ string_bytes text.old ++ counters_item number node.now) }
{
    let (tec, rec) = (node.txerr(), node.rxerr());
    write!(text, "; node {number} tec {tec} rec {rec}")
}
