//! [`Sheet`]: a drawing, as far as it came.

use super::all_lanes::{draw_all, pass_all, put_all};
use super::boxes::{put_mark, put_step};
use super::lane::Lane;
use super::places::{bits_width, level_line, line_height, place_in};
use super::sheet_text::{put_foot, put_top};
use std::alloc::{AllocError, Global};
use text_trace::{NodeTrace, bus_of};

/// A drawing, as far as it came; the lanes of the nodes stand beside it.
#[derive(Debug, Drop)]
pub(crate) struct Sheet {
    /// The marks of the ruler.
    pub(crate) marks: String,
    /// The line of the level of the bus.
    pub(crate) bus: String,
}

impl Sheet {
    ghost use Rattle.std.specs.Prelude.{◌≡◌, length, [], string_bytes, IfOk, OnOk};
    ghost use Rattle.text_svg.specs.Inside.DrawingProgress.{DrawsBit, TakesBit, shown_sheet};

    /// Before the first bit.
    pub(crate) fn new(alloc: Global) -> Sheet
        ensures marks { string_bytes result.marks ≡ [] }
        ensures bus { string_bytes result.bus ≡ [] }
    {
        Sheet {
            marks: String::new(alloc),
            bus: String::new(alloc),
        }
    }

    /// Goes past a bit of the run, which the node traces have at hand, and draws it from the first one on that is
    /// shown.
    pub(crate) fn take(
        &mut self,
        lanes: &mut [Lane],
        node_traces: &[NodeTrace<'_>],
        first: u32,
        bit: u32,
    ) -> Result<(), AllocError>
        requires { length node_traces.now ≡ length lanes.old }
        ensures { OnOk result (TakesBit first bit node_traces.now lanes.old lanes.new self.old self.new) }
    {
        if bit < first {
            pass_all(lanes, node_traces);
            return Ok(());
        }
        self.draw(lanes, node_traces, place_in(first, bit), bit)?;
        Ok(())
    }

    /// Draws the bit at hand at `x`.
    fn draw(
        &mut self,
        lanes: &mut [Lane],
        node_traces: &[NodeTrace<'_>],
        x: u64,
        bit: u32,
    ) -> Result<(), AllocError>
        requires { length node_traces.now ≡ length lanes.old }
        ensures { OnOk result (DrawsBit x bit node_traces.now lanes.old lanes.new self.old self.new) }
    {
        let bus = bus_of(node_traces);
        put_mark(&mut self.marks, line_height(lanes.len()), x, bit)?;
        put_step(&mut self.bus, x, level_line(bus))?;
        draw_all(lanes, node_traces, x, bus)?;
        Ok(())
    }

    /// The text of the drawing of so many bits.
    pub(crate) fn whole(
        &self,
        alloc: Global,
        lanes: &[Lane],
        many: u32,
    ) -> Result<String, AllocError>
        ensures { IfOk result (λ text. string_bytes text ≡ shown_sheet many self.now lanes.now) }
    {
        let mut text = String::new(alloc);
        put_top(
            &mut text,
            lanes.len(),
            many,
            self.marks.as_str(),
            self.bus.as_str(),
        )?;
        put_all(&mut text, bits_width(many), lanes)?;
        put_foot(&mut text, lanes.len())?;
        Ok(text)
    }
}
