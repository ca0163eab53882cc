//! [`picture`]: the picture of the bits of a run.

ghost use Rattle.std.specs.Prelude.{◌≡◌, ◌<◌, length, IfOk, string_bytes};
ghost use Rattle.text_picture.specs.PictureText.{IsPicture};
ghost use Rattle.text_picture.specs.Drawing.{AreFresh};
ghost use Rattle.text_picture.specs.Pages.{AreFirst};
ghost use Rattle.text_picture.specs.Knowing.{GoesOn};

use super::all_rows::rows_of;
use super::node_rows::NodeRows;
use super::page::Page;
use super::span::Span;
use can_frame::OutOfMemory;
use sja_log::{NodeRun, RunLog};
use std::alloc::{AllocError, Global};
use text_trace::{NodeTrace, finish_all, pass_on_all, rest_all, rest_for_all};

/// How many bits at rest are drawn at once, at least: after five equal levels no more of them count.
const MANY: u32 = 5;

/// The picture of the bits of a run from a first to a last one: in blocks of 120 bits the level of the bus in each bit,
/// and for each node the level that it drives and a letter for what the bit was for it. Without a last bit, or with one
/// behind the run's last, it goes up to the run's last bit. The text is empty where the first bit comes after the last.
///
/// Each node's journal is gone over once, all of them together, and past bits in which every node rests at once. Beside
/// the text no more is kept than one bit of each node and the rows of one block.
///
/// Error: [`OutOfMemory`] where memory was refused.
pub fn picture(
    alloc: Global,
    log: &RunLog,
    first: u32,
    last: Option<u32>,
) -> Result<String, OutOfMemory>
    ensures { IfOk result (λ text. IsPicture log.now first last (string_bytes text)) }
{
    let mut rows = rows_of(alloc, log.nodes())?;
    let text = drawn(alloc, log, first, last, rows.as_mut_slice())?;
    Ok(text)
}

/// The node traces of all nodes, before the first bit.
pub fn node_traces_of(alloc: Global, nodes: &[NodeRun]) -> Result<Vec<NodeTrace<'_>>, AllocError>
    ensures { IfOk result (λ node_traces. AreFirst nodes.now node_traces.items) }
{
    let mut node_traces = Vec::new(alloc);
    for node in nodes {
        node_traces.push(NodeTrace::of(false, &[], node))?;
    }
    Ok(node_traces)
}

/// The same, with the rows of all nodes before the first bit.
fn drawn(
    alloc: Global,
    log: &RunLog,
    first: u32,
    last: Option<u32>,
    rows: &mut [NodeRows],
) -> Result<String, AllocError>
    requires { AreFresh log.now.nodes rows.old }
    ensures { IfOk result (λ text. IsPicture log.now first last (string_bytes text)) }
{
    let mut all = node_traces_of(alloc, log.nodes())?;
    let node_traces = all.as_mut_slice();
    let span = Span::of(first, last, log.bits());
    let mut page = Page::new(alloc, span);
    let mut bit = 0;
    while bit < span.end {
        bit = go_on(alloc, &mut page, rows, node_traces, span, bit)?;
    }
    finish_all(node_traces);
    Ok(page.text)
}

/// Goes on past the next bit, or past more in which all nodes rest. Answers which one comes then.
fn go_on(
    alloc: Global,
    page: &mut Page,
    rows: &mut [NodeRows],
    node_traces: &mut [NodeTrace<'_>],
    span: Span,
    bit: u32,
) -> Result<u32, AllocError>
    requires within { bit < span.end }
    requires beside { length node_traces.old ≡ length rows.old }
    ensures { IfOk result (λ next. GoesOn span bit next node_traces.old node_traces.new rows.old rows.new page.old
        page.new) }
{
    let count = rest_for_all(node_traces, bit, page.room(span, bit));
    if count < MANY {
        pass_on_all(node_traces);
        page.take(alloc, rows, node_traces, span, bit)?;
        return Ok(bit + 1);
    }
    rest_all(node_traces, count);
    page.rest(alloc, rows, node_traces, span, bit, count)?;
    Ok(bit + count)
}
