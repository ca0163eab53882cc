//! Frames as text, in the notation of can-utils: `123#1122` is what `cansend` takes and `candump -L` prints.
//!
//! [`text_of`] writes the text of a frame, and [`read_text`] reads it. A text says a frame where, with its letters
//! turned to capitals, it is exactly the text of that frame. No call of this crate takes memory.
//!
//! Its tests stand in `crates/test_can/src/notation.rt`.
#![tactic(auto)]

mod body;
mod digit;
mod digits;
mod laws;
mod notation_fault;
mod reading;
mod remote;
mod rest;
mod writing;

pub use digits::TEXT_BYTES;
pub use laws::{a_text_says_one_frame, every_frame_has_a_text};
pub use notation_fault::NotationFault;
pub use reading::read_text;
pub use writing::text_of;
