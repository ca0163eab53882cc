//! Programs of rows: each line of the input is printed, and with a row what it answers, which a [`Rows`] says.
//!
//! A line that begins with `== ` is the title of the rows below it. One that begins with `## ` names what is made of
//! them, one that begins with `-- ` is their form, by which a row is made a plan's [`document`], and one that begins
//! with `++ ` says which [`Bits`] of the plan's run are drawn. Each other line is a row. `docs/work/CARRY-ON.md` has an
//! example.
#![tactic(auto)]

mod bits;
mod documents;
mod given_lines;
mod line;
mod marks;
mod rows;

pub use bits::Bits;
pub use documents::document;
pub use given_lines::GivenLines;
pub use line::Line;
pub use marks::marked;
pub use rows::{Rows, answer_rows};
