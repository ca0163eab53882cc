//! The words of a command line, read as what the program `sja` is asked to do.
//!
//! [`parse`] takes the words, the program's name first, and answers a [`Task`]. The crate `clap` does the parsing;
//! none of its types is seen from above.
#![tactic(auto)]

mod argument;
mod argument_row;
mod arguments;
mod command;
mod command_row;
mod commands;
mod details;
mod expected_found;
mod expected_words;
mod file_words;
mod files_found;
mod found;
mod laws;
mod parsing;
mod picture_found;
mod plan_question;
mod refused_text;
mod registers_found;
mod sweep_found;
mod sweep_words;
mod takes;
mod task;
mod words_fault;

pub use expected_words::ExpectedWords;
pub use file_words::FileWords;
pub use laws::{
    a_message_is_needed, a_struck_plan_parses, arbitrate_and_texts_parse, candump_parses,
    check_parses, decode_and_a_text_parse, encode_and_a_text_parse, expected_parses,
    filter_and_texts_parse, frames_parses, live_parses, message_and_a_text_parses, picture_parses,
    plan_parses, registers_parses, run_parses, sweep_parses, trace_parses, version_is_asked_for,
    wave_parses,
};
pub use parsing::parse;
pub use plan_question::PlanQuestion;
pub use sweep_words::SweepWords;
pub use task::{MOST_MESSAGES, Task};
pub use words_fault::WordsFault;
