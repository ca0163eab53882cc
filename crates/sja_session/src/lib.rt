//! Sessions: runs in one thread that whoever holds them drives, call by call.
//!
//! A [`Session`] is a bus of one to eight controllers with their drivers, by the rules of any version.
//! [`Session::step`] does one step of a driver now and gives its answer; [`Session::read`] and [`Session::write`] are
//! the accesses of a driver that knows addresses and bytes. [`Session::bits`] runs bits, and [`Session::strike`] has a
//! node see the other level in a bit to come. [`Session::to_place`] runs up to a place of a frame, and
//! [`Session::place`] tells where a node is. [`Session::answer`] is the last answer of a node, [`Session::now`] says
//! how many bits were run. What was done is written down: [`Session::plan`] is the plan so far, and
//! [`Session::finish`] gives that plan with the log of the session, which is the log of a run in one thread of just
//! that plan, with all that is promised of it. [`Session::endless`] is a session without an end, whose memory stays: it
//! forgets what is oldest, and has neither plan nor log. [`Session::accounts`] says what holds of the messages of every
//! session at every moment. `docs/use/LIBRARY.md` shows a first program.
//!
//! A call that can't be done is refused with its reason ([`SessionFault`], [`StepFault`], [`StrikeFault`],
//! [`TurnsUsed`]), and changes nothing. All memory that steps and bits need is reserved by [`Session::new`],
//! [`Session::with_room`] and [`Session::endless`]; beside these `strike`, `plan` and `finish` alone take memory.
#![tactic(auto)]

mod accounts;
mod answers;
mod beginning;
mod by_address;
mod finish;
mod interrupt_line;
mod lists;
mod no_plan;
mod place_outcome;
mod place_refusal;
mod placing;
mod plan_so_far;
mod rest_outcome;
mod resting;
mod running;
mod session;
mod session_fault;
mod session_room;
mod step_fault;
mod step_outcome;
mod stepping;
mod strike_fault;
mod striking;
mod turns;
mod turns_used;
mod typed_write;
mod watch_outcome;
mod watching;

pub use beginning::LAST_VERSION;
pub use no_plan::NoPlan;
pub use place_outcome::PlaceOutcome;
pub use place_refusal::PlaceRefusal;
pub use plan_so_far::{copied_strikes, copied_turns};
pub use rest_outcome::RestOutcome;
pub use session::Session;
pub use session_fault::SessionFault;
pub use session_room::SessionRoom;
pub use step_fault::StepFault;
pub use step_outcome::StepOutcome;
pub use strike_fault::StrikeFault;
pub use turns::{goes_on_last, push_turn};
pub use turns_used::TurnsUsed;
pub use watch_outcome::WatchOutcome;
