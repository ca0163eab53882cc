//! Words for what is wrong with a plan, and for what its run left out.
//!
//! [`mistake`] explains a fault of a plan's bytes: the line of the document, the key or the text as written, and what
//! would be right. [`hints`] says after a run what the run left out without a word: refused steps with their remedies,
//! steps, turns and strikes that didn't come. `specs/Lines.antt` says how long the words are at most.
//!
//! What is wrong with a plan is decided by `sja_plan`; here it is only put into words.
#![tactic(auto)]

mod document;
mod kind;
mod left_out;
mod lines;
mod misplaced_strikes;
mod mistakes;
mod near;
mod outline;
mod page;
mod texts;

pub use left_out::hints;
pub use misplaced_strikes::{misplaced, too_many_places};
pub use mistakes::mistake;
