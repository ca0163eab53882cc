//! The rows of all nodes.

ghost use Rattle.std.specs.Prelude.{◌≡◌, ◌++◌, length, IfOk, OnOk, string_bytes};
ghost use Rattle.lemmas.specs.Related.{EachRelated};
ghost use Rattle.text_report.specs.ReportLines.{numbered};
ghost use Rattle.text_picture.specs.Drawing.{AreFresh, EachBeside, Passes, Draws, Clears, shown_rows};
ghost use Rattle.text_picture.specs.Inside.PictureRest.{Rests, PassesRest};

use super::node_rows::NodeRows;
use can_levels::Level;
use sja_log::NodeRun;
use std::alloc::{AllocError, Global};
use text_trace::NodeTrace;

/// The rows of these nodes, before the first bit.
pub(crate) fn rows_of(alloc: Global, nodes: &[NodeRun]) -> Result<Vec<NodeRows>, AllocError>
    ensures { IfOk result (λ rows. AreFresh nodes.now rows.items) }
{
    let mut rows = Vec::new(alloc);
    for _node in nodes {
        rows.push(NodeRows::new(alloc))?;
    }
    Ok(rows)
}

/// Goes past the bit that the node traces have at hand.
pub(crate) fn pass_all(rows: &mut [NodeRows], node_traces: &[NodeTrace<'_>])
    requires { length node_traces.now ≡ length rows.old }
    ensures { EachBeside Passes node_traces.now rows.old rows.new }
{
    for k in 0..rows.len() {
        rows[k].pass(&node_traces[k]);
    }
}

/// Draws the bit that the node traces have at hand, in which the bus had this level.
pub(crate) fn draw_all(
    rows: &mut [NodeRows],
    node_traces: &[NodeTrace<'_>],
    bus: Level,
) -> Result<(), AllocError>
    requires { length node_traces.now ≡ length rows.old }
    ensures { OnOk result (EachBeside (Draws bus) node_traces.now rows.old rows.new) }
{
    for k in 0..rows.len() {
        rows[k].draw(bus, &node_traces[k])?;
    }
    Ok(())
}

/// Goes past five bits or more in which every node rested.
pub(crate) fn pass_rest_all(rows: &mut [NodeRows])
    ensures { EachRelated PassesRest rows.old rows.new }
{
    for k in 0..rows.len() {
        rows[k].pass_rest();
    }
}

/// Draws so many bits, five or more, in which every node rested.
pub(crate) fn draw_rest_all(
    rows: &mut [NodeRows],
    node_traces: &[NodeTrace<'_>],
    count: u32,
) -> Result<(), AllocError>
    requires { length node_traces.now ≡ length rows.old }
    ensures { OnOk result (EachBeside (Rests count) node_traces.now rows.old rows.new) }
{
    for k in 0..rows.len() {
        rows[k].draw_rest(count, &node_traces[k])?;
    }
    Ok(())
}

/// The rows of all nodes behind a text.
pub(crate) fn put_all(text: &mut String, rows: &[NodeRows]) -> Result<(), AllocError>
    ensures { OnOk result (string_bytes text.new ≡ string_bytes text.old ++ numbered shown_rows 0 rows.now) }
{
    let mut number = 0usize;
    for row in rows {
        row.put(text, number)?;
        number += 1;
    }
    Ok(())
}

/// Begins the next block.
pub(crate) fn clear_all(rows: &mut [NodeRows])
    ensures { EachRelated Clears rows.old rows.new }
{
    for k in 0..rows.len() {
        rows[k].clear();
    }
}
