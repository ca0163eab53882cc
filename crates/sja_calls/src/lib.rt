//! What a program in C asks of a session, as calls with numbers of any size.
//!
//! [`Handle`] is a session that goes on, or has ended. Its calls take the numbers of a C program, judge them, and
//! are refused with a [`CallFault`]. [`run_plan`] puts the report of a plan into a text. `crates/sja_c` exports them as
//! functions of C; `docs/use/DRIVER.md` tells how they are called.
//!
//! `specs/Beginnings.antt` says how a session begins, `specs/Calls.antt` and `specs/CallPlaces.antt` what each call
//! does and why it isn't done, and `specs/Texts.antt` how one ends and which texts are put.
#![tactic(auto)]

mod accesses;
mod bits;
mod call_fault;
mod handle;
mod numbers;
mod place_numbers;
mod placing;
mod plan_runs;
mod put_text;
mod state;
mod texts;

pub use call_fault::CallFault;
pub use handle::Handle;
pub use plan_runs::run_plan;
pub use state::State;
