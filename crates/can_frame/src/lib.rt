//! CAN frames, and the bytes in which an SJA1000 controller in PeliCAN mode holds them.
//!
//! A [`Frame`] is what a data or remote frame says. A [`Message`] is the same in the layout of the controller's
//! transmit and receive buffers, 3 to 13 bytes. The two are one to one. A [`Filter`] says which received frames the
//! controller keeps. No call of this crate takes memory.
//!
//! Its tests stand in `crates/test_can/src/frames`.
#![tactic(auto)]

mod buffer;
mod buffer_view;
mod byte_list;
mod filter;
mod frame;
mod frame_fault;
mod laws;
mod layout;
mod layout_fault;
mod message;
mod out_of_memory;
mod register;

pub use buffer_view::BufferView;
pub use filter::Filter;
pub use frame::{DATA_BYTES, Frame};
pub use frame_fault::FrameFault;
pub use laws::{every_message_has_one_frame, frames_with_one_message_are_one};
pub use layout_fault::LayoutFault;
pub use message::Message;
pub use out_of_memory::OutOfMemory;
