//! The picture of the bits of a run: the level of the bus in each bit, the level that each node drives, and what the
//! bit was for that node.
//!
//! [`picture`] makes of the log of a run a text with a row for the bus and two rows for each node, in blocks of 120
//! bits. What a bit was is told by the cut of its node's record, as `sja_replay` tells it.
//!
//! The bits that are shown, [`Span`], the node traces of a log, and the run of equal levels past a bit serve `text_svg`
//! too.
//!
//! `specs/Letters.antt` and `specs/EqualLevels.antt` say which letter a bit has, `specs/Rows.antt` what each row shows
//! of a bit, and `specs/PictureText.antt` the text row by row.
#![tactic(auto)]

mod all_rows;
mod copies;
mod letters;
mod lines;
mod node_rows;
mod page;
mod picture_text;
mod ruler;
mod span;

pub use node_rows::{is_full, run_past};
pub use picture_text::{node_traces_of, picture};
pub use span::Span;
