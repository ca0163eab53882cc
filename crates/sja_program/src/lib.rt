//! The program `sja` without threads, over words, a reader and two writers.
//!
//! [`sja_alone`] reads the words, does what they ask for, writes the exact text to its output or one line to its error
//! output, and answers the exit status. [`Output`] is a writer that remembers a failed write. What the words ask for is
//! a `Task` of the crate `sja_command_line`. For a text of a run ([`RunText`]) the program reads a plan from its input
//! ([`plan_of_input`]), runs it in one thread, and writes that text of the log ([`text_of`]). For `check` it explains
//! the plan's first fault, or says what the run left out ([`said_of`]). For `sweep` it says what each single bit error
//! does to the run, or writes the plan with a strike more ([`struck_in`]). For `plan` it writes the plan itself
//! ([`spelled`]). The texts of the other commands, and of each refusal, are those of `text_codec`.
//!
//! [`FurtherTask`] is what the words leave to `sja` of `crates/sja_run`: threads, plans in files, and a talk. Several
//! calls here do one thing for bytes or for a plan, and that crate does the same for files.
#![tactic(auto)]

mod answer;
mod check;
mod further_task;
mod input;
mod mistaken;
mod output;
mod plan_check;
mod plan_document;
mod registers;
mod run_plan;
mod run_text;
mod serial;
mod serial_text;
mod struck_plan;
mod sweeps;
mod thread_task;
mod unanswered;
mod unplaced;

pub use check::said_of;
pub use further_task::FurtherTask;
pub use input::{plan_of_input, read_input};
pub use output::Output;
pub use plan_check::PlanCheck;
pub use plan_document::spelled;
pub use registers::registers_in;
pub use run_plan::plan_in;
pub use run_text::{RunText, picture_or_drawing, text_of};
pub use serial::sja_alone;
pub use serial_text::written_of;
pub use struck_plan::struck_in;
pub use sweeps::{sweep_text, sweeping_of};
pub use thread_task::ThreadTask;
pub use unanswered::Unanswered;
