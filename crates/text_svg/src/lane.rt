//! [`Lane`]: the lane of a node.

use super::boxes::{put_box_if, put_step};
use super::counters::{rec_in, tec_in};
use super::lane_text::{put_bits, put_counters, put_head};
use super::places::{counter_line, level_line};
use super::signs::put_signs_if;
use can_levels::Level;
use sja_replay::BitEvent;
use std::alloc::{AllocError, Global};
use text_frames::Run;
use text_picture::{is_full, run_past};
use text_trace::driven_in;

/// The lane of a node as far as it was drawn, part by part, and the run of equal levels before its next bit.
#[derive(Debug, Drop)]
pub(crate) struct Lane {
    /// The run of equal levels since SOF; none before the first one.
    pub(crate) run: Option<Run>,
    /// The boxes of its bits.
    pub(crate) boxes: String,
    /// The line of the level that it drives.
    pub(crate) levels: String,
    /// The signs below its boxes.
    pub(crate) signs: String,
    /// The line of its transmit error counter.
    pub(crate) tecs: String,
    /// The line of its receive error counter.
    pub(crate) recs: String,
}

impl Lane {
    ghost use Rattle.std.specs.Prelude.{◌≡◌, ◌++◌, ◌<◌, ◌^◌, None, [], OnOk, string_bytes};
    ghost use Rattle.text_svg.specs.Inside.Drawing.{IsFresh, Passes, Draws, shown_lane};

    /// Before the first bit.
    pub(crate) fn new(alloc: Global) -> Lane
        ensures { IsFresh result }
    {
        Lane {
            run: None,
            boxes: String::new(alloc),
            levels: String::new(alloc),
            signs: String::new(alloc),
            tecs: String::new(alloc),
            recs: String::new(alloc),
        }
    }

    /// Goes past a bit.
    pub(crate) fn pass(&mut self, bit: &Option<BitEvent>)
        ensures { Passes bit.now self.old self.new }
    {
        self.run = run_past(self.run, bit);
    }

    /// Draws a bit at `x`, in which the bus had this level, and goes past it.
    pub(crate) fn draw(
        &mut self,
        x: u64,
        bus: Level,
        bit: &Option<BitEvent>,
    ) -> Result<(), AllocError>
        ensures { OnOk result (Draws x bus bit.now self.old self.new) }
    {
        put_box_if(&mut self.boxes, x, is_full(self.run), bit)?;
        put_step(&mut self.levels, x, level_line(driven_in(bit)))?;
        put_signs_if(&mut self.signs, x, bus, bit)?;
        put_step(&mut self.tecs, x, counter_line(tec_in(bit)))?;
        put_step(&mut self.recs, x, counter_line(rec_in(bit)))?;
        self.run = run_past(self.run, bit);
        Ok(())
    }

    /// The lane behind a text, where its bits have this width.
    pub(crate) fn put(&self, text: &mut String, width: u64, node: usize) -> Result<(), AllocError>
        requires { node < 2 ^ 56 }
        ensures { OnOk result (string_bytes text.new ≡ string_bytes text.old ++ shown_lane width node self.now) }
    {
        put_head(text, node)?;
        put_bits(
            text,
            self.boxes.as_str(),
            self.levels.as_str(),
            self.signs.as_str(),
        )?;
        put_counters(text, width, self.tecs.as_str(), self.recs.as_str())?;
        Ok(())
    }
}
