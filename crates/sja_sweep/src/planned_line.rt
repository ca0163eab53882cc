//! The line of the plan as it is.

ghost use Rattle.std.specs.Prelude.{◌≡◌, ◌++◌, codes, decimal, string_bytes, OnOk};
ghost use Rattle.sja_log.specs.EndWord.{end_word};
ghost use Rattle.sja_sweep.specs.SweepText.{short_activation, short_node, planned_line};
ghost use Rattle.sja_sweep.specs.Inside.Reaching.{short_nodes};

use super::counters::put_counters;
use sja_log::{ActivationLog, End, NodeRun, RunLog};
use std::alloc::AllocError;
use std::fmt::Write;

/// How many bits were run, why the run ended, what became of each activation, and the error counters.
pub(crate) fn put_planned(text: &mut String, log: &RunLog) -> Result<(), AllocError>
    ensures { OnOk result (string_bytes text.new ≡ string_bytes text.old ++ planned_line log.now) }
{
    put_beginning(text, log.bits(), log.end())?;
    put_short_nodes(text, log.nodes())?;
    put_counters(text, log.nodes())?;
    text.push('\n')?;
    Ok(())
}

/// How many bits were run, and why the run ended.
fn put_beginning(text: &mut String, bits: u32, end: End) -> Result<(), AllocError>
    ensures { OnOk result (string_bytes text.new ≡ string_bytes text.old
        ++ (codes "as planned: bits " ++ (decimal bits ++ (codes " end " ++ end_word end)))) }
{
    write!(text, "as planned: bits {bits} end {end}")
}

/// The activations of each node, in short.
fn put_short_nodes(text: &mut String, nodes: &[NodeRun]) -> Result<(), AllocError>
    ensures { OnOk result (string_bytes text.new ≡ string_bytes text.old ++ short_nodes nodes.now) }
{
    for number in 0..nodes.len() {
        put_short_node(text, number, &nodes[number])?;
    }
    Ok(())
}

/// Those of a node.
fn put_short_node(text: &mut String, number: usize, node: &NodeRun) -> Result<(), AllocError>
    ensures { OnOk result (string_bytes text.new ≡ string_bytes text.old ++ short_node number node.now) }
{
    let activations = node.activations();
    for place in 0..activations.len() {
        put_short_activation(text, number, place, &activations[place])?;
    }
    Ok(())
}

/// How many messages were released, and how many left unread.
fn put_short_activation(
    text: &mut String,
    node: usize,
    place: usize,
    activation: &ActivationLog,
) -> Result<(), AllocError>
    ensures { OnOk result (string_bytes text.new ≡ string_bytes text.old
        ++ short_activation node place activation.now) }
{
    let number = place as u128 + 1;
    let (released, unread) = (activation.released().len(), activation.unread().len());
    write!(
        text,
        "; node {node} activation {number} released {released} unread {unread}"
    )
}
