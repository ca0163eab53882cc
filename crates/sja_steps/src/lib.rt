//! What is scripted for a run: the steps of its drivers with what they answer, and the strikes at its nodes.
//!
//! The types stand in a crate of their own, so that the reader of plans and the writer of reports stand apart from the
//! drivers that take the steps and from the bus that strikes the levels. A [`Strike`] and a [`FaultScript`] say which
//! nodes they strike in which bits.
#![tactic(auto)]

mod fault_script;
mod ignored;
mod nodes;
mod refusal;
mod step;
mod step_answer;
mod step_record;
mod step_words;
mod strike;

pub use fault_script::FaultScript;
pub use ignored::Ignored;
pub use nodes::MOST_NODES;
pub use refusal::Refusal;
pub use step::Step;
pub use step_answer::StepAnswer;
pub use step_record::StepRecord;
pub use step_words::step_text;
pub use strike::Strike;
