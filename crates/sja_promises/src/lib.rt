//! What is promised of a run, and how its log is made.
//!
//! `specs/Headline.antt` says of a log what the project promises of every run, and `specs/Runs.antt` what it promises
//! of a run in one thread beside that.
//!
//! At the end of a run [`node_runs`] makes the nodes of its log: of the journal of each node, its driver, and what lay
//! on its links ([`LeftDown`]). [`script_of`] has the strikes of a plan as a bus takes them. These, `LeftDown::on` and
//! `LeftDown::push` alone take memory.
#![tactic(auto)]

mod activation_logs;
mod done_steps;
mod laws;
mod left_down;
mod nodes;
mod strikes;

pub use laws::{
    a_bus_with_traced_drivers_is_a_run, a_moment_is_a_front, a_settled_node_has_the_headline,
    a_step_of_versions_1_and_2_is_one_act, an_abort_stands_right_before_a_bit,
};
pub use left_down::LeftDown;
pub use nodes::node_runs;
pub use strikes::script_of;
