//! The line of a CAN frame, made and read: CRC sequence, bit stuffing, a reader of one level at a time.
//!
//! The levels and what a line is stand in the crate `can_levels`; its types are here too. Only `line_of` takes memory.
//!
//! Its tests stand in `crates/test_can/src/lines`.
#![tactic(auto)]

mod body_word;
mod crc;
mod frame_part;
mod index;
mod kept_frame;
mod layout;
mod line;
mod place;
mod reading;
mod run;
mod sent_body;
mod shift;
mod stuffing;

pub use can_levels::{
    FramePlace, Level, LineFault, Segment, ShiftEvent, ShiftFault, a_frame_has_one_sent_line,
    a_good_beginning_can_go_on, a_list_has_one_check_sequence, a_list_has_one_stuffing,
    a_place_code_counts_no_stuff_bits, a_stuffed_list_stuffs_one_list,
    a_stuffed_part_says_where_it_ends, an_early_stuff_bit_comes_before_rtr,
    lines_with_the_same_levels_are_of_one_frame,
};
pub use crc::crc_of;
pub use kept_frame::KeptFrame;
pub use line::line_of;
pub use reading::read_line;
pub use sent_body::SentBody;
pub use shift::Shift;
