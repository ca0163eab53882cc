//! What the driver of each node could have received in a run, as the log format of can-utils.
//!
//! [`candump`] makes of the log of a run the text that `candump -l` would write of one device a node: a line for each
//! frame that was stored, and if asked one for each error frame that Linux's driver of the SJA1000 sends where it
//! serves each interrupt at once. It is for `log2asc`, `canplayer`, python-can and Wireshark. What each bit brought is
//! told by the cut of its node's record, as `sja_replay` tells it.
//!
//! `specs/BitErrors.antt` and `specs/ErrorFrames.antt` say which error frame a bit brings, and
//! `specs/CandumpText.antt` the text line by line.
#![tactic(auto)]

mod all_bits;
mod bit_errors;
mod bit_lines;
mod bus_error;
mod candump_text;
mod controller_state;
mod driver_bits;
mod error_frame;
mod frame_lines;
mod interrupt;

pub use candump_text::candump;
