//! The program `sja` as one function for a page: a static library, thin over `sja_program`.
//!
//! [`PageAnswer`] is what the function `sja_page` answers. The words and the plan come as bytes, and what the program
//! writes to its two outputs goes into one room.
#![tactic(auto)]

mod answer;
mod outcome;
mod page;
mod put_texts;
mod words;

pub use answer::PageAnswer;
