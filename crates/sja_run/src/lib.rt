//! The program `sja`, over words, files, a reader and two writers.
//!
//! [`sja`] is the whole program. It leaves to [`sja_alone`] of `crates/sja_program` what needs no threads, and does the
//! rest ([`FurtherTask`]): a run or a sweep in threads, plans that stand in files ([`Sources`]), a report that is
//! expected, and a talk by `sja_live`. [`run_threads`] is the run of a plan with each driver in a thread of its own.
//! What these calls take and answer is found here too, as [`Plan`], [`RunLog`] and [`report`].
#![tactic(auto)]

mod difference;
mod expected;
mod file_answers;
mod file_outcome;
mod file_reads;
mod file_texts;
mod files;
mod live;
mod name_lines;
mod names;
mod program;
mod report_place;
mod source_fault;
mod sources;
mod thread_text;
mod threaded_sweeps;
mod tries;

pub use file_outcome::FileOutcome;
pub use program::sja;
pub use sja_check::{hints, mistake};
pub use sja_command_line::{
    ExpectedWords, FileWords, PlanQuestion, SweepWords, Task, WordsFault, parse,
};
pub use sja_log::{ActivationLog, End, NodeRun, RunFault, RunLog};
pub use sja_placed_strikes::plan_of;
pub use sja_plan::{Plan, Turn};
pub use sja_plan_reading::PlanFault;
pub use sja_plan_text::plan_text;
pub use sja_program::{FurtherTask, Output, RunText, ThreadTask, read_input, sja_alone};
pub use sja_serial::run_serial;
pub use sja_sweep::{SweepTexts, Sweeping, sweep, sweep_jobs};
pub use sja_threads::run_threads;
pub use source_fault::SourceFault;
pub use sources::Sources;
pub use text_candump::candump;
pub use text_codec::{CommandRefusal, SweepRefusal};
pub use text_frames::frames;
pub use text_picture::picture;
pub use text_report::report;
pub use text_svg::drawing;
pub use text_trace::trace;
pub use text_wave::wave;
pub use tries::Tries;
