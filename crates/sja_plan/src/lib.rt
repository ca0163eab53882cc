//! Plans of runs: what each driver does, in which turns, and which bits are struck.
//!
//! A [`Plan`] is within the limits of its version, whoever makes it: [`Plan::of`] and [`Plan::blank`] ask for that, and
//! [`Plan::strike`] refuses a strike too many. A [`PlacedPlan`] has strikes by [`Place`] beside it, as its document has
//! them. How a document is read stands in `sja_plan_reading`, how one is written in `sja_plan_text`.
#![tactic(auto)]

mod growing;
mod limits;
mod one_more_strike;
mod place;
mod placed_plan;
mod placed_strike;
mod plan;
mod shorter;
mod strike_refusal;
mod struck_frames;
mod turn;

pub use limits::{
    FIRST_BY_BYTES, MOST_BITS, MOST_BITS_BY_BYTES, MOST_STEPS, MOST_STEPS_BY_BYTES, MOST_STRIKES,
    MOST_STRIKES_BY_BYTES, MOST_TURNS, MOST_TURNS_BY_BYTES, most_bits, most_steps, most_strikes,
    most_turns,
};
pub use place::Place;
pub use placed_plan::PlacedPlan;
pub use placed_strike::PlacedStrike;
pub use plan::Plan;
pub use strike_refusal::StrikeRefusal;
pub use struck_frames::StruckFrames;
pub use turn::Turn;
