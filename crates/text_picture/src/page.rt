//! [`Page`]: a picture, as far as it was drawn.

use super::all_rows::{clear_all, draw_all, draw_rest_all, pass_all, pass_rest_all, put_all};
use super::copies::put_levels;
use super::lines::{put_level, put_row};
use super::node_rows::NodeRows;
use super::ruler::put_ruler;
use super::span::Span;
use std::alloc::{AllocError, Global};
use text_trace::{NodeTrace, bus_of_hands};

/// How many bits a block has.
const BLOCK: u32 = 120;

/// A picture, as far as it was drawn; the rows of the nodes stand beside it.
#[derive(Debug, Drop)]
pub(crate) struct Page {
    /// The blocks before the one that is drawn.
    pub(crate) text: String,
    /// The first bit of the block that is drawn.
    pub(crate) start: u32,
    /// The row of the bus in that block.
    pub(crate) bus: String,
}

impl Page {
    ghost use Rattle.std.specs.Prelude.{◌≡◌, ◌<◌, ◌≤◌, ◌+◌, ◌-◌, length, [], string_bytes, OnOk};
    ghost use Rattle.text_picture.specs.Pages.{DrawsBit, DrawsRest, MayEnd, EndsBlock, HasRoom};
    ghost use Rattle.text_picture.specs.Pages.{TakesBit, TakesRest};

    /// Before the first bit.
    pub(crate) fn new(alloc: Global, span: Span) -> Page
        ensures text { string_bytes result.text ≡ [] }
        ensures start { result.start ≡ span.first }
        ensures bus { string_bytes result.bus ≡ [] }
    {
        Page {
            text: String::new(alloc),
            start: span.first,
            bus: String::new(alloc),
        }
    }

    /// Goes past a bit of the run, which the node traces have at hand, and draws it where it is to be shown.
    pub(crate) fn take(
        &mut self,
        alloc: Global,
        rows: &mut [NodeRows],
        node_traces: &[NodeTrace<'_>],
        span: Span,
        bit: u32,
    ) -> Result<(), AllocError>
        requires within { bit < span.end }
        requires beside { length node_traces.now ≡ length rows.old }
        ensures { OnOk result (TakesBit span bit node_traces.now rows.old rows.new self.old self.new) }
    {
        if bit < span.first {
            pass_all(rows, node_traces);
            return Ok(());
        }
        self.draw(rows, node_traces)?;
        self.end_if_over(alloc, rows, span, bit + 1)?;
        Ok(())
    }

    /// How many bits from this one on are before the first one that is shown, or else in the block that is drawn.
    pub(crate) fn room(&self, span: Span, bit: u32) -> u32
        requires within { bit < span.end }
        ensures { HasRoom span bit result self.now.start }
    {
        let most = span.end - bit;
        if bit < span.first {
            most.min(span.first - bit)
        } else {
            most.min(BLOCK.saturating_sub(bit.saturating_sub(self.start)))
        }
    }

    /// Goes past so many bits of the run, five or more, in which all nodes rested as the node traces have it at hand,
    /// and draws them where they are to be shown.
    pub(crate) fn rest(
        &mut self,
        alloc: Global,
        rows: &mut [NodeRows],
        node_traces: &[NodeTrace<'_>],
        span: Span,
        bit: u32,
        count: u32,
    ) -> Result<(), AllocError>
        requires many { 5 ≤ count }
        requires room { HasRoom span bit count self.old.start }
        requires beside { length node_traces.now ≡ length rows.old }
        ensures { OnOk result (TakesRest span bit count node_traces.now rows.old rows.new self.old self.new) }
    {
        if bit < span.first {
            pass_rest_all(rows);
            return Ok(());
        }
        self.draw_rest(rows, node_traces, count)?;
        self.end_if_over(alloc, rows, span, bit + count)?;
        Ok(())
    }

    /// Draws the bit at hand.
    fn draw(
        &mut self,
        rows: &mut [NodeRows],
        node_traces: &[NodeTrace<'_>],
    ) -> Result<(), AllocError>
        requires { length node_traces.now ≡ length rows.old }
        ensures { OnOk result (DrawsBit node_traces.now rows.old rows.new self.old self.new) }
    {
        let bus = bus_of_hands(node_traces);
        put_level(&mut self.bus, bus)?;
        draw_all(rows, node_traces, bus)?;
        Ok(())
    }

    /// Draws so many bits in which all nodes rested.
    fn draw_rest(
        &mut self,
        rows: &mut [NodeRows],
        node_traces: &[NodeTrace<'_>],
        count: u32,
    ) -> Result<(), AllocError>
        requires { length node_traces.now ≡ length rows.old }
        ensures { OnOk result (DrawsRest count node_traces.now rows.old rows.new self.old self.new) }
    {
        put_levels(&mut self.bus, count)?;
        draw_rest_all(rows, node_traces, count)?;
        Ok(())
    }

    /// Ends the block before this bit, if it's full or no bit is left.
    fn end_if_over(
        &mut self,
        alloc: Global,
        rows: &mut [NodeRows],
        span: Span,
        stop: u32,
    ) -> Result<(), AllocError>
        ensures { OnOk result (MayEnd span stop rows.old rows.new self.old self.new) }
    {
        if !is_over(span, self.start, stop) {
            return Ok(());
        }
        self.end_block(alloc, rows, span, stop)?;
        Ok(())
    }

    /// Ends the block before this bit.
    #[tactic(auto, using(crate::proofs::NodeRows::Fresh::block_texts))]
    fn end_block(
        &mut self,
        alloc: Global,
        rows: &mut [NodeRows],
        span: Span,
        stop: u32,
    ) -> Result<(), AllocError>
        ensures { OnOk result (EndsBlock span stop rows.old rows.new self.old self.new) }
    {
        let many = stop.saturating_sub(self.start);
        put_space(&mut self.text, span.first < self.start)?;
        put_ruler(alloc, &mut self.text, self.start, many)?;
        put_row(&mut self.text, "bus     ", self.bus.as_str())?;
        put_all(&mut self.text, rows)?;
        self.bus.clear();
        clear_all(rows);
        self.start = stop;
        Ok(())
    }
}

ghost use Rattle.std.specs.Prelude.{◌≡◌, ◌-◌, ◌||◌, ◌++◌, nat_le, OnOk, string_bytes};
ghost use Rattle.text_picture.specs.Pages.{space_if};

/// Whether a block with this first bit ends before this one.
fn is_over(span: Span, start: u32, stop: u32) -> bool
    ensures { result ≡ (nat_le span.end stop || nat_le 120 (stop - start)) }
{
    span.end <= stop || BLOCK <= stop.saturating_sub(start)
}

/// An empty line before a block that isn't the first one.
fn put_space(text: &mut String, later: bool) -> Result<(), AllocError>
    ensures { OnOk result (string_bytes text.new ≡ string_bytes text.old ++ space_if later) }
{
    if later { text.push('\n') } else { Ok(()) }
}
