//! [`trace`]: the trace of a run.

ghost use Rattle.std.specs.Prelude.{◌≡◌, ◌++◌, string_bytes, IfOk, OnOk};
ghost use Rattle.text_report.specs.ReportLines.{numbered};
ghost use Rattle.text_trace.specs.TraceText.{IsTrace};
ghost use Rattle.text_trace.specs.TraceProgress.{late_lines};

use super::due::Due;
use super::frame_bits::put_bits;
use super::node_trace::NodeTrace;
use super::node_traces::{finish_all, node_traces_of, rest_on};
use super::remarks::Remarks;
use super::steps::put_steps;
use can_frame::OutOfMemory;
use sja_log::RunLog;
use sja_plan::Plan;
use std::alloc::Global;

/// The trace of a run: a line for each step of this plan that was done, and one for each bit that brought a node
/// something, in the order of bits, of nodes and of steps.
///
/// Each node's journal is gone over once, all of them together, and past bits in which every node rests at once. Beside
/// the text no more is kept than one bit of each node.
///
/// Error: [`OutOfMemory`] where memory was refused.
pub fn trace(alloc: Global, plan: &Plan, log: &RunLog) -> Result<String, OutOfMemory>
    ensures { IfOk result (λ text. IsTrace plan.now log.now (string_bytes text)) }
{
    let mut node_traces = node_traces_of(alloc, plan, log.nodes())?;
    let mut text = String::new(alloc);
    let mut remarks = Remarks::new(alloc);
    let mut bit = 0;
    while bit < log.bits() {
        bit += rest_on(node_traces.as_mut_slice(), bit, log.bits() - bit);
        if bit < log.bits() {
            let most = log.bits() - bit;
            bit += put_bits(
                alloc,
                &mut text,
                &mut remarks,
                node_traces.as_mut_slice(),
                bit,
                most,
            )?;
        }
    }
    finish_all(node_traces.as_mut_slice());
    put_late_steps(alloc, &mut text, node_traces.as_slice(), log.bits())?;
    Ok(text)
}

/// The lines of the steps that come after so many bits.
fn put_late_steps(
    alloc: Global,
    text: &mut String,
    node_traces: &[NodeTrace<'_>],
    bits: u32,
) -> Result<(), OutOfMemory>
    ensures { OnOk result (string_bytes text.new ≡ string_bytes text.old
        ++ numbered (late_lines bits) 0 node_traces.now) }
{
    let due = Due {
        late: true,
        bit: bits,
    };
    let mut number = 0usize;
    for node_trace in node_traces {
        let steps = &node_trace.steps;
        put_steps(alloc, text, number, steps.steps, steps.done, due)?;
        number += 1;
    }
    Ok(())
}
