//! The lines of bits, where one reader serves all nodes that have read just the same of a frame.

ghost use Rattle.std.specs.Prelude.{◌≡◌, ◌+◌, ◌^◌, ◌++◌, ◌<◌, ◌≤◌, ℕ, true, false, List, length, slice_index_or};
ghost use Rattle.std.specs.Prelude.{string_bytes, IfOk, OnOk};
ghost use Rattle.lemmas.specs.Related.{EachRelated};
ghost use Rattle.text_report.specs.ReportLines.{numbered};
ghost use Rattle.text_trace.specs.declared.node_trace.NodeTrace.{NodeTrace as Telling};
ghost use Rattle.text_trace.specs.TraceProgress.{AreUnderway};
ghost use Rattle.text_trace.specs.Passing.{hands_text};
ghost use Rattle.text_trace.specs.Inside.Reading.{Stands, RowGoesOn, TellsBits, HearsOne};
ghost use Rattle.text_trace.specs.Inside.Reading.{other_line, other_lines};

use super::node_lines::put_unless_plain;
use super::node_trace::NodeTrace;
use super::node_traces::bus_of_hands;
use super::readers::{hear_next, mark_all, pass_from_all, pass_others, reader_of};
use super::remarks::Remarks;
use can_bits::Shift;
use can_frame::OutOfMemory;
use can_levels::Level;
use std::alloc::Global;

/// The lines of all nodes in some bits from this one on, of which there are so many at most. Answers how many bits.
pub(crate) fn put_bits(
    alloc: Global,
    text: &mut String,
    remarks: &mut Remarks,
    node_traces: &mut [NodeTrace<'_>],
    bit: u32,
    most: u32,
) -> Result<u32, OutOfMemory>
    requires some { 0 < most }
    requires room { bit + most < 2 ^ 32 }
    requires under { AreUnderway node_traces.old }
    ensures some { IfOk result (λ count. 0 < count) }
    ensures most { IfOk result (λ count. count ≤ most) }
    ensures tells { IfOk result (λ count. TellsBits bit node_traces.old (string_bytes text.old) count node_traces.new
        (string_bytes text.new)) }
{
    let mut reader = reader_of(node_traces);
    mark_all(node_traces, &reader);
    let mut count = 0;
    let mut reads = true;
    while reads {
        let more = most - count > 1;
        reads = put_row(
            alloc,
            text,
            remarks,
            node_traces,
            &mut reader,
            bit + count,
            more,
        )?;
        count += 1;
    }
    Ok(count)
}

/// The lines of all nodes in the next bit. Answers whether nodes are behind this reader still, which is so where it is
/// asked for, the reader took the level of the bus for them, and nothing is said of them.
fn put_row(
    alloc: Global,
    text: &mut String,
    remarks: &mut Remarks,
    node_traces: &mut [NodeTrace<'_>],
    reader: &mut Shift,
    bit: u32,
    more: bool,
) -> Result<bool, OutOfMemory>
    requires { (vs : List Telling) × EachRelated (Stands reader.old) node_traces.old vs }
    ensures last { more ≡ false → IfOk result (λ reads. reads ≡ false) }
    ensures goes { IfOk result (λ reads. (vs : List Telling) → EachRelated (Stands reader.old) node_traces.old vs
        → RowGoesOn bit vs (string_bytes text.old) reads reader.new node_traces.new (string_bytes text.new)) }
{
    let bus = pass_others(node_traces);
    let before = *reader;
    // The segments are asked for the proof alone: what the bit brought has them.
    let _segment = before.next_segment();
    if more && hear_next(node_traces, bus, bit) && reader.take_inside(bus) {
        let _next = reader.next_segment();
        hear_all(alloc, text, remarks, node_traces, bus, bit)?;
        return Ok(true);
    }
    pass_from_all(node_traces, &before);
    put_bit(alloc, text, remarks, node_traces, bit)?;
    Ok(false)
}

/// The lines of all nodes in the bit at hand.
fn put_bit(
    alloc: Global,
    text: &mut String,
    remarks: &mut Remarks,
    node_traces: &[NodeTrace<'_>],
    bit: u32,
) -> Result<(), OutOfMemory>
    ensures text { OnOk result (string_bytes text.new ≡ string_bytes text.old ++ hands_text bit node_traces.now) }
{
    let bus = bus_of_hands(node_traces);
    let mut number = 0usize;
    for node_trace in node_traces {
        put_unless_plain(alloc, text, remarks, number, node_trace, bus, bit)?;
        number += 1;
    }
    Ok(())
}

/// The lines of the nodes in the bit at hand that aren't behind a reader, where the bus had this level. Those that are
/// go on past it.
fn hear_all(
    alloc: Global,
    text: &mut String,
    remarks: &mut Remarks,
    node_traces: &mut [NodeTrace<'_>],
    bus: Level,
    bit: u32,
) -> Result<(), OutOfMemory>
    requires { (k : ℕ) (t : Telling) → k < length node_traces.old → (slice_index_or node_traces.old k t).reads ≡ true
        → (slice_index_or node_traces.old k t).bits.replay.bits + 1 < 2 ^ 32 }
    ensures hears { OnOk result (EachRelated HearsOne node_traces.old node_traces.new) }
    ensures text { OnOk result (string_bytes text.new ≡ string_bytes text.old ++ other_lines bus bit node_traces.new) }
{
    for k in 0..node_traces.len() {
        put_other(alloc, text, remarks, k, &node_traces[k], bus, bit)?;
        node_traces[k].hear();
    }
    Ok(())
}

/// The lines of a node, where it isn't behind a reader.
#[inline(always)]
fn put_other(
    alloc: Global,
    text: &mut String,
    remarks: &mut Remarks,
    node: usize,
    node_trace: &NodeTrace<'_>,
    bus: Level,
    bit: u32,
) -> Result<(), OutOfMemory>
    ensures text { OnOk result (string_bytes text.new ≡ string_bytes text.old
        ++ other_line bus bit node node_trace.now) }
{
    if node_trace.reads {
        return Ok(());
    }
    put_unless_plain(alloc, text, remarks, node, node_trace, bus, bit)
}
