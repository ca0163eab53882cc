//! Strikes by place: at which bit of a plan's run each is.
//!
//! [`place_of`] says at which place a bit of a frame is, [`bit_of`] at which bit a frame has a place. [`resolved`]
//! makes of a plan and its strikes by place the plan with each of them by its bit, and [`plan_of`] that of the bytes of
//! a document. The places are found run by run: of those that are left the one that comes first in the run is struck
//! there, and then the plan is run with that strike too.
//!
//! `specs/FramePlaces.antt` says where a bit is, `specs/Aims.antt` which frame is meant, and `specs/Resolving.antt`
//! which plan comes of it.
#![tactic(auto)]

mod aim;
mod aimed_frame;
mod aims;
mod frame_places;
mod laws;
mod place_fault;
mod plan_read;
mod read_fault;
mod resolving;

pub use frame_places::{bit_of, place_of};
pub use laws::a_run_plan_has_texts;
pub use place_fault::PlaceFault;
pub use plan_read::plan_of;
pub use read_fault::ReadFault;
pub use resolving::{MOST_PLACED_BITS, MOST_PLACES, resolved};
