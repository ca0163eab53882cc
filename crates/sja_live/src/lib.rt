//! A session that is driven line by line: `sja live`.
//!
//! [`talk`] has a session over a reader and a writer: each line is a call, a typed step, an access by address and byte,
//! bits, a look or a strike, and its answer is written before the next line is read. The plan that the session writes
//! has typed steps in versions 1 and 2, and in version 3 its accesses, so that a run of it, by `sja run`, has the
//! report with which the talk ends.
//!
//! `specs/Beginning.antt` says how its session begins, `specs/Answering.antt` what each command is answered, and
//! `specs/Talking.antt` what a whole talk is.
#![tactic(auto)]

mod answer_text;
mod answering;
mod bit_answers;
mod bit_word;
mod command_refusal;
mod command_words;
mod exhausted;
mod line_fault;
mod line_words;
mod live_answer;
mod live_command;
mod live_session_end;
mod live_session_fault;
mod next_answer;
mod next_line;
mod opening;
mod opening_fault;
mod opening_refusal;
mod opening_words;
mod place_answers;
mod place_text;
mod place_words;
mod step_answers;
mod talking;

pub use exhausted::Exhausted;
pub use line_fault::LineFault;
pub use live_answer::LiveAnswer;
pub use live_command::LiveCommand;
pub use live_session_end::LiveSessionEnd;
pub use live_session_fault::LiveSessionFault;
pub use opening::Opening;
pub use opening_fault::OpeningFault;
pub use talking::talk;
