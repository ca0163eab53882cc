//! Plans read: TOML documents that say what the drivers do, in which turns, and which bits are struck.
//!
//! [`read_plan`] makes a [`Plan`](sja_plan::Plan) of a document's bytes, or tells the first check that fails.
//! [`read_placed_plan`] takes the strikes by place of version 3 too, and gives them beside the plan. No crate above
//! this one sees a type of `toml`. The laws say that a text has one meaning or none, and that bytes are one plan or
//! have one first fault. [`step_of`], [`address_of`], [`value_of`], [`number_within`], [`node_within`] and [`byte`]
//! read words as a plan has them, and [`REGISTERS`] and [`BITS`] are the names that it has.
#![tactic(auto)]

mod access_words;
mod checks;
mod comments;
mod document;
mod document_limits;
mod item_text;
mod laws;
mod list_fault;
mod members;
mod message_word;
mod named_byte;
mod place_names;
mod plan_bytes;
mod plan_fault;
mod plan_text;
mod register_bits;
mod register_names;
mod settings;
mod step_text;
mod strike_count;
mod strike_item;
mod strike_text;
mod tables;
mod text_fault;
mod turn_text;
mod value;
mod within;
mod word;

pub use access_words::{address_of, value_of};
pub use document_limits::{
    BY_BYTES_LINE, GREATEST_NUMBER, LAST_VERSION, MOST_BYTES, MOST_BYTES_BY_BYTES, MOST_DIGITS,
    most_bytes,
};
pub use laws::{
    a_plan_has_no_fault, a_text_says_one_step, a_text_says_one_strike, a_text_says_one_turn,
    bytes_are_one_plan, bytes_have_one_first_fault, comments_before_a_plan_change_nothing,
};
pub use place_names::{PLACES, WIDE_PLACES, place_of_word, place_of_words};
pub use plan_bytes::{read_placed_plan, read_plan};
pub use plan_fault::PlanFault;
pub use register_bits::{BITS, bit_names};
pub use register_names::{REGISTERS, name_read, register_address};
pub use step_text::step_of;
pub use tables::faulty_line;
pub use text_fault::TextFault;
pub use word::{byte, find_words, node_within, number_within};
