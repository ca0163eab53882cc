//! The report of a run.

ghost use Rattle.std.specs.Prelude.{◌≡◌, ◌<◌, ◌+◌, ◌^◌, ◌++◌, length, map, slice_index_or, string_bytes, IfOk, OnOk};
ghost use Rattle.sja_journal.specs.Between.{between_bits};
ghost use Rattle.text_report.specs.ReportLines.{lines_text, line_text, numbered, run_line};
ghost use Rattle.text_report.specs.ReportLines.{activation_lines, node_lines, report_text};
ghost use Rattle.text_report.specs.Inside.Tallies.{tally_value, no_tally, tallied, activation_lines_of, tallied_lines};

use super::lines::{put_counts_line, put_messages, put_node_line, put_steps};
use super::tallies::tallies_of;
use super::tally::Tally;
use can_frame::OutOfMemory;
use sja_log::{ActivationLog, End, NodeRun, RunLog};
use std::alloc::{AllocError, Global};
use std::fmt::Write;

/// The report of a run: the text that `specs/ReportLines.antt` says line by line.
///
/// Each node's journal is gone over once.
///
/// Error: [`OutOfMemory`] where memory was refused.
pub fn report(alloc: Global, log: &RunLog) -> Result<String, OutOfMemory>
    ensures { IfOk result (λ text. string_bytes text ≡ report_text log.now) }
{
    let mut text = String::new(alloc);
    put_run_line(&mut text, log.version(), log.bits(), log.end())?;
    put_nodes(alloc, &mut text, log.nodes())?;
    Ok(text)
}

/// The line of the run.
fn put_run_line(text: &mut String, version: u8, bits: u32, end: End) -> Result<(), AllocError>
    ensures { OnOk result (string_bytes text.new ≡ string_bytes text.old ++ line_text (run_line version bits end)) }
{
    write!(text, "sja version {version} bits {bits}")?;
    writeln!(text, " end {end}")?;
    Ok(())
}

/// The lines of each node.
#[tactic(auto, using(crate::proofs::WrittenLines::Texts::lines_both))]
fn put_nodes(alloc: Global, text: &mut String, nodes: &[NodeRun]) -> Result<(), AllocError>
    ensures { OnOk result (string_bytes text.new ≡ string_bytes text.old
        ++ lines_text (numbered node_lines 0 nodes.now)) }
{
    let mut number = 0usize;
    for node in nodes {
        put_node(alloc, text, number, node)?;
        number += 1;
    }
    Ok(())
}

/// The lines of a node.
#[tactic(auto, using(crate::proofs::WrittenLines::Texts::lines_both))]
fn put_node(
    alloc: Global,
    text: &mut String,
    number: usize,
    node: &NodeRun,
) -> Result<(), AllocError>
    ensures { OnOk result (string_bytes text.new ≡ string_bytes text.old ++ lines_text (node_lines number node.now)) }
{
    put_node_line(text, number, node)?;
    put_steps(text, node.done())?;
    put_activations(alloc, text, node)?;
    Ok(())
}

/// The lines of each activation.
#[tactic(auto, using(crate::proofs::NodeTallies::PartTallies::tallied_right))]
fn put_activations(alloc: Global, text: &mut String, node: &NodeRun) -> Result<(), AllocError>
    ensures { OnOk result (string_bytes text.new ≡ string_bytes text.old
        ++ lines_text (numbered (activation_lines node.now.journal) 1 node.now.activations)) }
{
    let tallies = tallies_of(alloc, node.journal())?;
    put_tallied(text, &tallies, &Tally::new(alloc), node.activations())?;
    Ok(())
}

/// The lines of each activation, by what the entries before the first start and those of each activation come to.
#[tactic(auto, using(crate::proofs::WrittenLines::Texts::lines_both))]
fn put_tallied(
    text: &mut String,
    tallies: &[Tally],
    none: &Tally,
    activations: &[ActivationLog],
) -> Result<(), AllocError>
    requires { tally_value none.now ≡ no_tally }
    ensures { OnOk result (string_bytes text.new ≡ string_bytes text.old
        ++ lines_text (numbered (tallied_lines (map tally_value tallies.now)) 1 activations.now)) }
{
    let mut number = 0usize;
    for activation in activations {
        number += 1;
        put_activation(text, tally_at(tallies, none, number), number, activation)?;
    }
    Ok(())
}

/// The tally of an activation; nothing where the journal has no start of it.
fn tally_at<'a>(tallies: &'a [Tally], none: &'a Tally, number: usize) -> &'a Tally
    requires { tally_value none.now ≡ no_tally }
    ensures { tally_value result.now ≡ slice_index_or (map tally_value tallies.now) number no_tally }
{
    if number < tallies.len() {
        &tallies[number]
    } else {
        none
    }
}

/// The lines of an activation.
fn put_activation(
    text: &mut String,
    tally: &Tally,
    number: usize,
    activation: &ActivationLog,
) -> Result<(), AllocError>
    ensures { OnOk result (string_bytes text.new ≡ string_bytes text.old
        ++ lines_text (activation_lines_of (tally_value tally.now) number activation.now)) }
{
    put_counts_line(
        text,
        number,
        tally.stored,
        tally.overrun.len(),
        tally.free(),
    )?;
    put_messages(text, "released", activation.released())?;
    put_messages(text, "unread", activation.unread())?;
    put_messages(text, "overrun", tally.overrun.as_slice())?;
    Ok(())
}
