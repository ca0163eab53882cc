//! The lines of a node in a bit.

ghost use Rattle.std.specs.Prelude.{◌≡◌, ◌++◌, ℕ, true, [], decimal, string_bytes, OnOk};
ghost use Rattle.text_trace.specs.Causes.{all_said};
ghost use Rattle.text_trace.specs.Telling.{at_hand};
ghost use Rattle.text_trace.specs.TraceText.{joined, bit_line};
ghost use Rattle.text_trace.specs.Hands.{hand_line, bit_event_of};
ghost use Rattle.text_trace.specs.Passing.{told_lines};
ghost use Rattle.text_trace.specs.Inside.Saying.{is_any, line_opening, line_if};

use super::events::put_all;
use super::hand::bit_event_of;
use super::node_trace::NodeTrace;
use super::plain::is_plain;
use super::remarks::Remarks;
use can_frame::OutOfMemory;
use can_levels::Level;
use can_node_rules::Counters;
use sja_replay::{BitEvent, ShortBit};
use std::alloc::{AllocError, Global};
use std::fmt::Write;

/// The lines of the steps before this bit, in which the bus had this level, and then its own. The steps and the bit are
/// looked at first: of most bits nothing is told.
#[inline(always)]
#[tactic(auto, using(text_report::proofs::WrittenLines::Written::two_texts))]
pub(crate) fn put_unless_plain(
    alloc: Global,
    text: &mut String,
    remarks: &mut Remarks,
    node: usize,
    node_trace: &NodeTrace<'_>,
    bus: Level,
    bit: u32,
) -> Result<(), OutOfMemory>
    ensures text { OnOk result (string_bytes text.new ≡ string_bytes text.old
        ++ told_lines bus bit node node_trace.now) }
{
    if is_unsaid(node_trace, bus, bit) {
        return Ok(());
    }
    node_trace.steps.put(alloc, text, node, bit)?;
    let left = node_trace.counters;
    put_hand_line(
        text,
        remarks,
        node,
        &node_trace.short,
        node_trace.bits.bit(),
        node_trace.steps.by_bytes,
        left,
        bus,
        bit,
    )?;
    Ok(())
}

/// Whether no step stands right before this bit, and nothing is said of the bit at hand, in which the bus had this
/// level. It may be so where it isn't said.
#[inline(always)]
#[tactic(auto, using(crate::proofs::SoFar::Lines::unsaid))]
fn is_unsaid(node_trace: &NodeTrace<'_>, bus: Level, bit: u32) -> bool
    ensures { result ≡ true → (node : ℕ) → told_lines bus bit node node_trace.now ≡ [] }
{
    match &node_trace.short {
        Some(short) => node_trace.steps.is_quiet(bit) && is_plain(bus, node_trace.counters, short),
        None => false,
    }
}

/// The line of a bit at hand, in short or else in full, if the node has the bit and it brought anything.
#[tactic(auto, using(crate::proofs::SoFar::Lines::no_line))]
fn put_hand_line(
    text: &mut String,
    remarks: &mut Remarks,
    node: usize,
    short: &Option<ShortBit>,
    full: &Option<BitEvent>,
    by_bytes: bool,
    left: Counters,
    bus: Level,
    bit: u32,
) -> Result<(), AllocError>
    ensures { OnOk result (string_bytes text.new ≡ string_bytes text.old
        ++ hand_line by_bytes bus bit node left short.now full.now) }
{
    if let Some(short) = short {
        return put_short_line(text, remarks, node, short, by_bytes, left, bus, bit);
    }
    match full {
        Some(bit_event) => put_event_line(text, remarks, node, bit_event, by_bytes, left, bus, bit),
        None => Ok(()),
    }
}

/// The line of a bit in short, if anything is said of it.
#[tactic(auto, using(crate::proofs::SoFar::Lines::no_words))]
fn put_short_line(
    text: &mut String,
    remarks: &mut Remarks,
    node: usize,
    short: &ShortBit,
    by_bytes: bool,
    left: Counters,
    bus: Level,
    bit: u32,
) -> Result<(), AllocError>
    ensures { OnOk result (string_bytes text.new ≡ string_bytes text.old
        ++ bit_line bit node (all_said by_bytes bus left (bit_event_of short.now))) }
{
    if is_plain(bus, left, short) {
        return Ok(());
    }
    put_event_line(
        text,
        remarks,
        node,
        &bit_event_of(short),
        by_bytes,
        left,
        bus,
        bit,
    )
}

/// The line of a bit, if anything is said of it.
fn put_event_line(
    text: &mut String,
    remarks: &mut Remarks,
    node: usize,
    bit_event: &BitEvent,
    by_bytes: bool,
    left: Counters,
    bus: Level,
    bit: u32,
) -> Result<(), AllocError>
    ensures { OnOk result (string_bytes text.new ≡ string_bytes text.old
        ++ bit_line bit node (all_said by_bytes bus left bit_event.now)) }
{
    tell(remarks, by_bytes, bus, left, bit_event)?;
    put_line(text, remarks, node, bit)?;
    Ok(())
}

/// The events of a bit, from the first one on.
fn tell(
    remarks: &mut Remarks,
    by_bytes: bool,
    bus: Level,
    left: Counters,
    bit: &BitEvent,
) -> Result<(), AllocError>
    ensures text { OnOk result (string_bytes remarks.new.text ≡ joined (all_said by_bytes bus left bit.now)) }
    ensures begun { OnOk result (remarks.new.begun ≡ is_any (all_said by_bytes bus left bit.now)) }
{
    remarks.clear();
    put_all(remarks, by_bytes, bus, left, bit)?;
    Ok(())
}

/// The line of events, if there are any.
fn put_line(text: &mut String, remarks: &Remarks, node: usize, bit: u32) -> Result<(), AllocError>
    ensures { OnOk result (string_bytes text.new ≡ string_bytes text.old
        ++ line_if remarks.now.begun bit node (string_bytes remarks.now.text)) }
{
    if !remarks.begun() {
        return Ok(());
    }
    put_opening(text, node, bit)?;
    text.push_str(remarks.text.as_str())?;
    text.push('\n')?;
    Ok(())
}

/// What a line begins with.
#[tactic(auto, using(text_report::proofs::WrittenLines::Written::five_texts))]
fn put_opening(text: &mut String, node: usize, bit: u32) -> Result<(), AllocError>
    ensures { OnOk result (string_bytes text.new ≡ string_bytes text.old ++ line_opening bit node) }
{
    text.push_str("bit ")?;
    write!(text, "{bit}")?;
    text.push_str(" node ")?;
    put_node_number(text, node)?;
    text.push_str(": ")?;
    Ok(())
}

/// The number of a node.
#[tactic(auto, using(std::proofs::lemmas::Fmt::decimal_digit))]
fn put_node_number(text: &mut String, node: usize) -> Result<(), AllocError>
    ensures { OnOk result (string_bytes text.new ≡ string_bytes text.old ++ decimal node) }
{
    if node < 10 {
        return text.push(char::from(b'0' + node as u8));
    }
    write!(text, "{node}")
}
