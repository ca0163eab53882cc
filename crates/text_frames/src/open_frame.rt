//! [`OpenFrame`]: a frame that a node started, as far as it came.

use super::field::Field;
use super::frame_bit::FrameBit;
use super::last_bit::LastBit;
use super::run::Run;
use super::started_frame::StartedFrame;
use super::starts::is_intermission;
use can_frame::Frame;
use sja_replay::{BitEvent, ShortBit};
use std::alloc::{AllocError, Global};
use text_trace::is_frame;

/// A frame that a node started, as far as it came.
#[derive(Debug, Drop)]
pub(crate) struct OpenFrame {
    /// The number of the bit that is its SOF.
    pub(crate) sof: u32,
    /// The frame.
    pub(crate) frame: Frame,
    /// Its bits after SOF.
    pub(crate) bits: Vec<FrameBit>,
    /// The run of equal levels that ends them.
    pub(crate) run: Run,
    /// The last bit of the frame itself.
    pub(crate) last: LastBit,
    /// Whether intermission began.
    pub(crate) paused: bool,
}

impl OpenFrame {
    ghost use Rattle.std.specs.Prelude.{◌≡◌, [], OnOk};
    ghost use Rattle.text_frames.specs.FrameStories.{value_of};
    ghost use Rattle.text_frames.specs.Inside.Walking.{story_with, IsOpened, TakesIn};
    ghost use Rattle.text_frames.specs.Passing.{TakesShort};

    /// The frame that a bit starts.
    pub(crate) fn of(alloc: Global, frame: Frame, bit: &BitEvent) -> OpenFrame
        ensures { IsOpened frame bit.now result }
    {
        OpenFrame {
            sof: bit.bit,
            frame,
            bits: Vec::new(alloc),
            run: Run::of(bit.seen),
            last: LastBit::of(bit),
            paused: false,
        }
    }

    /// Takes a bit that belongs to it.
    pub(crate) fn take(&mut self, bit: &BitEvent) -> Result<(), AllocError>
        ensures { OnOk result (TakesIn self.old self.new bit.now) }
    {
        self.bits.push(FrameBit::after(self.run, bit))?;
        self.run = self.run.with(bit.seen);
        if is_frame(bit.before.phase) {
            self.last = LastBit::of(bit);
        }
        self.paused = is_intermission(bit.before.phase);
        Ok(())
    }

    /// Takes a bit that belongs to it, in short: the one that has this number.
    pub(crate) fn take_short(&mut self, number: u32, bit: &ShortBit) -> Result<(), AllocError>
        ensures { OnOk result (TakesShort number bit.now self.old self.new) }
    {
        let field = Field::of_bit(bit.phase, bit.segment);
        self.bits.push(FrameBit::of(self.run, number, field))?;
        self.run = self.run.with(bit.seen);
        if is_frame(bit.phase) {
            self.last = LastBit::silent(number, bit.phase);
        }
        self.paused = is_intermission(bit.phase);
        Ok(())
    }

    /// The frame of this node, with the bits that came.
    pub(crate) fn closed(self, node: usize) -> StartedFrame
        ensures { value_of result ≡ story_with node self [] }
    {
        StartedFrame {
            node,
            frame: self.frame,
            sof: self.sof,
            bits: self.bits,
            last: self.last,
        }
    }
}
