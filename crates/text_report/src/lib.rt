//! The report of a run: the text of its log.
//!
//! [`report`] makes it of a [`RunLog`](sja_log::RunLog), in one pass over each journal. The text stands line by line in
//! `specs/ReportLines.antt`. [`put_answer`] and [`put_bytes`] write its words, for other texts of runs,
//! [`put_byte`] and [`put_ascii`] what these have beside them.
#![tactic(auto)]

mod lines;
mod report_text;
mod tallies;
mod tally;
mod words;

pub use report_text::report;
pub use words::{put_answer, put_ascii, put_byte, put_bytes};
