//! [`drawing`]: the drawing of the bits of a run.

ghost use Rattle.std.specs.Prelude.{◌≡◌, IfOk, string_bytes};
ghost use Rattle.text_svg.specs.DrawingText.{IsDrawing};
ghost use Rattle.text_svg.specs.Inside.Drawing.{AreFresh};

use super::all_lanes::lanes_of;
use super::lane::Lane;
use super::sheet::Sheet;
use can_frame::OutOfMemory;
use sja_log::RunLog;
use std::alloc::{AllocError, Global};
use text_picture::{Span, node_traces_of};
use text_trace::{finish_all, go_on_all};

/// The drawing of the bits of a run from a first to a last one, as scalable vector graphics: one text that a browser
/// shows, and that needs nothing else. Without a last bit, or with one behind the run's last, it goes up to the run's
/// last bit. No bits are drawn where the first one comes after the last.
///
/// Each node's journal is gone over once, all of them together. The lanes are kept part by part until they are joined,
/// so that a drawing takes memory for its text twice.
///
/// Error: [`OutOfMemory`] where memory was refused.
pub fn drawing(
    alloc: Global,
    log: &RunLog,
    first: u32,
    last: Option<u32>,
) -> Result<String, OutOfMemory>
    ensures { IfOk result (λ text. IsDrawing log.now first last (string_bytes text)) }
{
    let mut lanes = lanes_of(alloc, log.nodes())?;
    let text = drawn(alloc, log, first, last, lanes.as_mut_slice())?;
    Ok(text)
}

/// The same, with the lanes of all nodes before the first bit.
fn drawn(
    alloc: Global,
    log: &RunLog,
    first: u32,
    last: Option<u32>,
    lanes: &mut [Lane],
) -> Result<String, AllocError>
    requires { AreFresh log.now.nodes lanes.old }
    ensures { IfOk result (λ text. IsDrawing log.now first last (string_bytes text)) }
{
    let mut all = node_traces_of(alloc, log.nodes())?;
    let node_traces = all.as_mut_slice();
    let span = Span::of(first, last, log.bits());
    let mut sheet = Sheet::new(alloc);
    for bit in 0..span.end {
        go_on_all(node_traces);
        sheet.take(lanes, node_traces, span.first, bit)?;
    }
    finish_all(node_traces);
    let many = span.end.saturating_sub(span.first);
    let text = sheet.whole(alloc, lanes, many)?;
    Ok(text)
}
