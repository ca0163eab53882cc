//! The levels of a CAN frame on the bus, as data and definitions: a level, the segments of a line, what may be wrong
//! with a level, and where in a frame a level comes.
//!
//! `specs` says what the line of a frame is: its body, CRC sequence, stuff bits and end, as levels. It also says of any
//! list of levels whether it begins a line, and which level is the first wrong one. The laws say that a line has one
//! frame. The crate `can_bits` makes and reads lines by these definitions.
#![tactic(auto)]

mod frame_place;
mod laws;
mod level;
mod line_fault;
mod segment;
mod shift_event;
mod shift_fault;

pub use frame_place::FramePlace;
pub use laws::{
    a_frame_has_one_sent_line, a_good_beginning_can_go_on, a_list_has_one_check_sequence,
    a_list_has_one_stuffing, a_place_code_counts_no_stuff_bits, a_stuffed_list_stuffs_one_list,
    a_stuffed_part_says_where_it_ends, an_early_stuff_bit_comes_before_rtr,
    lines_with_the_same_levels_are_of_one_frame,
};
pub use level::Level;
pub use line_fault::LineFault;
pub use segment::Segment;
pub use shift_event::ShiftEvent;
pub use shift_fault::ShiftFault;
