//! What is otherwise in a run than without a strike.

ghost use Rattle.std.specs.Prelude.{◌≡◌, ◌++◌, length, codes, decimal, string_bytes, OnOk, IfOk};
ghost use Rattle.std.specs.Option.{option_copied};
ghost use Rattle.sja_journal.specs.Carried.{overrun_of};
ghost use Rattle.sja_sweep.specs.Nodes.{node_at};
ghost use Rattle.sja_sweep.specs.Steps.{script_at};
ghost use Rattle.sja_sweep.specs.Messages.{list_items};
ghost use Rattle.sja_sweep.specs.Changes.{times_off, off_item, overrun_items, node_items, same_end, end_item};
ghost use Rattle.sja_sweep.specs.Changes.{all_items};
ghost use Rattle.sja_sweep.specs.Inside.Reaching.{off_item_by, nodes_items};

use super::activations::put_activations;
use super::between::{Between, between_of};
use super::message_changes::put_list;
use super::steps::put_steps;
use sja_log::{End, NodeRun, RunLog};
use sja_plan::Plan;
use sja_steps::Step;
use std::alloc::{AllocError, Global};
use std::fmt::Write;

/// All that is otherwise in a run, node after node; other answers to reads of ECC are left out, where a plan says which
/// these are.
pub(crate) fn put_all(
    alloc: Global,
    text: &mut String,
    out: Option<&Plan>,
    without: &RunLog,
    now: &RunLog,
) -> Result<(), AllocError>
    requires { length without.now.nodes ≡ length now.now.nodes }
    ensures { OnOk result (string_bytes text.new ≡ string_bytes text.old
        ++ all_items (option_copied out.entry) without.now now.now) }
{
    put_nodes(alloc, text, out, without.nodes(), now.nodes())?;
    put_end(text, without.end(), now.end())?;
    Ok(())
}

/// Of each node.
fn put_nodes(
    alloc: Global,
    text: &mut String,
    out: Option<&Plan>,
    without: &[NodeRun],
    now: &[NodeRun],
) -> Result<(), AllocError>
    requires { length without.now ≡ length now.now }
    ensures { OnOk result (string_bytes text.new ≡ string_bytes text.old
        ++ nodes_items (option_copied out.entry) without.now now.now) }
{
    for node in 0..now.len() {
        put_node(
            alloc,
            text,
            script_at(out, node),
            node,
            &without[node],
            &now[node],
        )?;
    }
    Ok(())
}

/// The script of a node of which other answers to reads of ECC are left out; no step where all are told.
fn script_at(out: Option<&Plan>, node: usize) -> &[Step]
    ensures { result.now ≡ script_at (option_copied out.entry) node }
{
    match out {
        Some(plan) if node < plan.nodes() => plan.steps(node),
        _ => &[],
    }
}

/// All that is otherwise at a node: messages, steps, and bus-off.
fn put_node(
    alloc: Global,
    text: &mut String,
    script: &[Step],
    node: usize,
    without: &NodeRun,
    now: &NodeRun,
) -> Result<(), AllocError>
    ensures { OnOk result (string_bytes text.new ≡ string_bytes text.old
        ++ node_items script.now node without.now now.now) }
{
    let before = between_of(alloc, without.journal())?;
    let after = between_of(alloc, now.journal())?;
    put_activations(alloc, text, node, without.activations(), now.activations())?;
    put_overrun(alloc, text, node, &before, &after)?;
    put_steps(alloc, text, script, node, without.done(), now.done())?;
    put_off(text, node, before.off, after.off)?;
    Ok(())
}

/// The messages that were overrun.
fn put_overrun(
    alloc: Global,
    text: &mut String,
    node: usize,
    without: &Between,
    now: &Between,
) -> Result<(), AllocError>
    ensures { OnOk result (string_bytes text.new ≡ string_bytes text.old
        ++ list_items (codes "; node " ++ (decimal node ++ codes " overrun"))
        without.now.overrun.items now.now.overrun.items) }
{
    let of = format!(in alloc; "; node {node} overrun")?;
    put_list(
        alloc,
        text,
        of.as_str(),
        without.overrun.as_slice(),
        now.overrun.as_slice(),
    )?;
    Ok(())
}

/// How often a node went bus-off, where that is another number.
fn put_off(text: &mut String, node: usize, without: u64, now: u64) -> Result<(), AllocError>
    ensures { OnOk result (string_bytes text.new ≡ string_bytes text.old ++ off_item_by node without now) }
{
    if without == now {
        return Ok(());
    }
    write!(text, "; node {node} bus-off {now}")
}

/// Why the run ended, where that is another reason.
fn put_end(text: &mut String, without: End, now: End) -> Result<(), AllocError>
    ensures { OnOk result (string_bytes text.new ≡ string_bytes text.old ++ end_item without now) }
{
    if same_end(without, now) {
        return Ok(());
    }
    write!(text, "; end {now}")
}

/// Whether two runs ended for one reason.
fn same_end(first: End, second: End) -> bool
    ensures { result ≡ same_end first second }
{
    match (first, second) {
        (End::Turns, End::Turns) => true,
        (End::Rest, End::Rest) => true,
        (End::Bits, End::Bits) => true,
        _ => false,
    }
}
