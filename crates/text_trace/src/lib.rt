//! The trace of a run: what each bit brought to each node, and what each step answered, in the order of the bits.
//!
//! [`trace`] makes of a plan and the log of its run a text with a line for each step that was done, and one for each
//! bit that brought a node something. The events are those of the cut of each node's record, as `sja_replay`
//! tells them.
//!
//! The names of errors and segments, the texts of frames and places, the test for SOF and that for a frame serve
//! `text_frames` too. The bits of a node one after another, [`NodeBits`], and the text of a frame serve `text_candump`,
//! and the node traces `text_picture`.
//!
//! A trace passes bits that tell nothing in short. `specs/Inside/Hands.antt` and `Passing.antt` say why that leaves its
//! text as it is: a bit in short is one of several bit events, and of each of them the same is said. Where several
//! nodes receive a frame and have read just the same of it, one reader takes its levels for all of them
//! (`specs/Inside/Reading.antt`).
//!
//! Of a run in one thread each bit and each message that was stored is told: laws of `crates/sja_laws` say so.
//!
//! `specs/Events.antt` and `specs/BitEvents.antt` say which events a bit has and in which words, and
//! `specs/TraceText.antt` the text line by line.
#![tactic(auto)]

mod causes;
mod counters;
mod due;
mod event_texts;
mod events;
mod frame_bits;
mod hand;
mod has_event;
mod names;
mod node_bits;
mod node_lines;
mod node_steps;
mod node_trace;
mod node_traces;
mod plain;
mod readers;
mod reading;
mod remarks;
mod steps;
mod trace_text;
mod words;

pub use counters::have_same;
pub use hand::{counters_of, driven_of};
pub use has_event::{is_frame, is_same, is_start};
pub use names::{cause_name, segment_name};
pub use node_bits::NodeBits;
pub use node_trace::NodeTrace;
pub use node_traces::{
    bus_of, bus_of_hands, driven_in, finish_all, go_on_all, pass_on_all, rest_all, rest_for_all,
    with_node,
};
pub use trace_text::trace;
pub use words::{put_frame, put_place};
