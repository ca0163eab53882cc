//! What the program `sja` writes of one frame, of one line and of frames that contend, and of each refusal.
//!
//! [`encoded`], [`decoded`], [`filtered`], [`arbitrated`] and [`translated`] make the texts of five commands from the
//! texts of their arguments, and [`registers_told`] that of registers. A [`CommandRefusal`] says why a request has no
//! answer, and shows as the text that the program writes of it.
#![tactic(auto)]

mod arbitrate;
mod bytes_text;
mod command_refusal;
mod decode;
mod encode;
mod filter;
mod line_text;
mod message;
mod notation;
mod plan_fault_text;
mod registers;
mod sweep_refusal;

pub use arbitrate::arbitrated;
pub use command_refusal::CommandRefusal;
pub use decode::decoded;
pub use encode::encoded;
pub use filter::filtered;
pub use notation::translated;
pub use registers::registers_told;
pub use sweep_refusal::SweepRefusal;
