//! Sweeps: a plan's run again for each node and each bit of it, with that node struck in that bit, and what came of it.
//!
//! [`sweep`] runs the plan as it is, and then with one strike more, node after node and bit after bit, or with each two
//! strikes that are some bits apart. [`sweep_jobs`] makes the same runs in several threads. The answer has two texts:
//! one with a line for each run of successive bits that have one outcome, and one with a row a run.
//! `specs/Targets.antt` says which strikes are tried, `specs/Changes.antt` what is otherwise, `specs/SweepText.antt`
//! how the texts say it, and `specs/Sweeps.antt` what is promised of them. A [`Sweeping`] says what is asked for, and a
//! [`SweepFault`] why there is no answer.
#![tactic(auto)]

mod activations;
mod between;
mod counters;
mod error_words;
mod first_error;
mod gains;
mod jobs;
mod kind;
mod kinds;
mod limits;
mod message_changes;
mod messages;
mod nodes;
mod pair_count;
mod pairs;
mod planned_line;
mod runs;
mod singles;
mod span;
mod spans;
mod steps;
mod strike_range;
mod sweep_fault;
mod sweep_start;
mod sweep_texts;
mod sweeping;
mod target;
mod trial;
mod trial_outcome;
mod trial_run;
mod trials;
mod whole_sweep;
mod write_texts;

pub use kinds::Kinds;
pub use limits::{MOST_RUNS, MOST_SWEPT_BITS};
pub use sweep_fault::SweepFault;
pub use sweep_texts::SweepTexts;
pub use sweeping::Sweeping;
pub use whole_sweep::{sweep, sweep_jobs};
