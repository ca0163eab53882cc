//! The frames that the nodes of a run start: of each the bits of its fields and its stuff bits, and how it ended.
//!
//! [`started_frames`] finds them in the log of a run. [`frames`] makes of it a text with a line for each frame, so that
//! a strike can be aimed at a field. Which bits a frame has, and how it ended, is told by the cut of its node's record,
//! as `sja_replay` tells it.
//!
//! The fields and the runs of equal levels serve `text_picture` too.
//!
//! `specs/FrameBits.antt`, `specs/FrameEnds.antt` and `specs/FrameStories.antt` say which bits a frame has, and
//! `specs/FramesText.antt` the text line by line.
#![tactic(auto)]

mod byte_texts;
mod ending;
mod field;
mod field_names;
mod field_texts;
mod frame_bit;
mod frame_list;
mod last_bit;
mod laws;
mod open_frame;
mod run;
mod started_frame;
mod started_list;
mod starts;
mod walk;

pub use ending::Ending;
pub use field::Field;
pub use frame_bit::FrameBit;
pub use frame_list::frames;
pub use last_bit::LastBit;
pub use laws::a_stuff_bit_is_one_of_the_line;
pub use run::Run;
pub use started_frame::StartedFrame;
pub use started_list::started_frames;
