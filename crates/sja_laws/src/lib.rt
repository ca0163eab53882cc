//! Laws of runs in one thread: what a plan, a journal or a step leaves open, and that it is nothing.
//!
//! [`a_plan_has_one_log`] is the law of whole runs. Others are of their parts: the registers, the levels on the bus,
//! one bit of a node or of a run, one step of a driver, how many activations begin, and where `rest`, `irq`, a round of
//! bits and a session that watches lines end. [`every_bit_of_a_run_is_told`] and the laws beside it are of its trace.
//! The last ones are for who runs a plan again, has the plan of a session, or reads a sweep. Each law is the contract
//! of a function that does nothing.
#![tactic(auto)]

mod bit;
mod levels;
mod one_log;
mod registers;
mod resting;
mod starting;
mod step;
mod sweeping;
mod telling;
mod watching;

pub use bit::{a_bit_brings_one_thing, a_bit_of_a_run_does_one_thing};
pub use levels::{a_record_drives_one_level, what_all_drive_is_what_each_sees};
pub use one_log::{
    a_plan_has_one_log, a_plan_that_is_run_again_has_the_same_log, a_session_replays,
};
pub use registers::{entries_and_acts_lead_to_one_port, entries_and_acts_say_one_line};
pub use resting::{
    a_round_of_go_runs_no_bit, irq_runs_one_number_of_bits, rest_runs_one_number_of_bits,
};
pub use starting::{a_start_without_an_end_is_done, no_more_activations_begin_than_a_version_has};
pub use step::{a_step_does_one_thing, a_step_that_is_done_has_not_to_wait};
pub use sweeping::{a_row_of_a_sweep_is_of_the_run, a_sweep_has_one_text};
pub use telling::{
    every_bit_of_a_run_is_told, every_journal_of_a_run_has_bit_events,
    every_stored_message_has_its_line, every_stored_message_is_told,
};
pub use watching::{a_round_runs_one_number_of_bits, a_watch_runs_one_number_of_bits};
