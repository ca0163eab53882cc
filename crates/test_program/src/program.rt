//! The whole program: a row is words, and below it stands what the program answers.
//!
//! The program's name is first, with a blank between two words; `%20` is a blank in a word, `''` a word of nothing, and
//! an empty row has no words. Over it `-- ` gives the document on the program's input, and `++ ` a first and a last
//! number. Behind ` < ` stands what fills the document's `@`, and behind ` | ` how the row is tried, as [`asked`] says.
//! `<0 .>` in a document's place is an empty one.

mod answer;
mod beginnings;
mod fed_input;
mod groups;
mod narrow;
mod parts;
mod row_questions;
mod shelf;
mod talks;
mod trial;
mod waves;
mod ways;
mod writes;

pub(crate) use row_questions::answered;
