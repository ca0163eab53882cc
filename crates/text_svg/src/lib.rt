//! The drawing of the bits of a run as scalable vector graphics: one text that a browser shows, and that needs nothing
//! else.
//!
//! [`drawing`] makes of the log of a run a ruler, the level of the bus, and for each node a lane: a box with a colour
//! and a name for what each bit was for it, the level that it drives, signs where it was struck and where a message was
//! stored for its driver or lost, and its error counters. What a bit was is told by the cut of its node's record, as
//! `sja_replay` tells it.
//!
//! `specs/Kinds.antt` says which colour and name a bit has, `specs/Places.antt`, `Elements.antt` and `Lanes.antt` what
//! stands where in a lane, and `specs/DrawingText.antt` the whole text.
#![tactic(auto)]

mod all_lanes;
mod boxes;
mod counters;
mod drawing_text;
mod kind;
mod kinds;
mod lane;
mod lane_text;
mod legend;
mod places;
mod sheet;
mod sheet_text;
mod signs;
mod style;

pub use drawing_text::drawing;
