//! [`RunText`]: a text of a run.

use super::row_options::RowOptions;
use sja_log::RunLog;
use sja_plan::Plan;
use std::alloc::{AllocError, Global};
use text_candump::candump;
use text_frames::frames;
use text_picture::picture;
use text_svg::drawing;
use text_trace::trace;

/// A text of a run.
#[derive(Clone, Copy)]
pub(crate) enum RunText {
    /// Its trace.
    Trace,
    /// The list of its frames.
    Frames,
    /// The picture of its bits.
    Picture,
    /// The drawing of its bits.
    Drawing,
    /// What its drivers could have received.
    Candump,
}

impl RunText {
    /// This text of a plan's run.
    pub(crate) fn of(
        self,
        alloc: Global,
        plan: &Plan,
        log: &RunLog,
        asked: RowOptions,
    ) -> Result<String, AllocError> {
        match self {
            RunText::Trace => traced(alloc, plan, log),
            RunText::Frames => listed(alloc, log),
            RunText::Picture => pictured(alloc, log, asked),
            RunText::Drawing => drawn(alloc, log, asked),
            RunText::Candump => received(alloc, log, asked),
        }
    }
}

/// The trace of a run.
fn traced(alloc: Global, plan: &Plan, log: &RunLog) -> Result<String, AllocError> {
    trace(alloc, plan, log).or(Err(AllocError))
}

/// The list of a run's frames.
fn listed(alloc: Global, log: &RunLog) -> Result<String, AllocError> {
    frames(alloc, log, false).or(Err(AllocError))
}

/// The picture of the bits that are asked for.
fn pictured(alloc: Global, log: &RunLog, asked: RowOptions) -> Result<String, AllocError> {
    picture(alloc, log, asked.bits.first, asked.bits.last).or(Err(AllocError))
}

/// The drawing of the bits that are asked for.
fn drawn(alloc: Global, log: &RunLog, asked: RowOptions) -> Result<String, AllocError> {
    drawing(alloc, log, asked.bits.first, asked.bits.last).or(Err(AllocError))
}

/// What the drivers of a run could have received, with error frames where they are asked for.
fn received(alloc: Global, log: &RunLog, asked: RowOptions) -> Result<String, AllocError> {
    candump(alloc, log, asked.errors).or(Err(AllocError))
}
