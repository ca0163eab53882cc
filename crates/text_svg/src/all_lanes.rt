//! The lanes of all nodes.

ghost use Rattle.std.specs.Prelude.{◌≡◌, ◌++◌, length, IfOk, OnOk, string_bytes};
ghost use Rattle.text_picture.specs.Drawing.{EachBeside, InFull};
ghost use Rattle.text_report.specs.ReportLines.{numbered};
ghost use Rattle.text_svg.specs.Inside.Drawing.{AreFresh, Passes, Draws, shown_lane};

use super::lane::Lane;
use can_levels::Level;
use sja_log::NodeRun;
use std::alloc::{AllocError, Global};
use text_trace::NodeTrace;

/// The lanes of these nodes, before the first bit.
pub(crate) fn lanes_of(alloc: Global, nodes: &[NodeRun]) -> Result<Vec<Lane>, AllocError>
    ensures { IfOk result (λ lanes. AreFresh nodes.now lanes.items) }
{
    let mut lanes = Vec::new(alloc);
    for _node in nodes {
        lanes.push(Lane::new(alloc))?;
    }
    Ok(lanes)
}

/// Goes past the bit that the node traces have at hand.
pub(crate) fn pass_all(lanes: &mut [Lane], node_traces: &[NodeTrace<'_>])
    requires { length node_traces.now ≡ length lanes.old }
    ensures { EachBeside (InFull Passes) node_traces.now lanes.old lanes.new }
{
    for k in 0..lanes.len() {
        lanes[k].pass(node_traces[k].bits.bit());
    }
}

/// Draws the bit that the node traces have at hand at `x`, in which the bus had this level.
pub(crate) fn draw_all(
    lanes: &mut [Lane],
    node_traces: &[NodeTrace<'_>],
    x: u64,
    bus: Level,
) -> Result<(), AllocError>
    requires { length node_traces.now ≡ length lanes.old }
    ensures { OnOk result (EachBeside (InFull (Draws x bus)) node_traces.now lanes.old lanes.new) }
{
    for k in 0..lanes.len() {
        lanes[k].draw(x, bus, node_traces[k].bits.bit())?;
    }
    Ok(())
}

/// The lanes of all nodes behind a text, where their bits have this width.
pub(crate) fn put_all(text: &mut String, width: u64, lanes: &[Lane]) -> Result<(), AllocError>
    ensures { OnOk result (string_bytes text.new ≡ string_bytes text.old ++ numbered (shown_lane width) 0 lanes.now) }
{
    let mut number = 0usize;
    for lane in lanes {
        lane.put(text, width, number)?;
        number += 1;
    }
    Ok(())
}
