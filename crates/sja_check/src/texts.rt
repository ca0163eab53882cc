//! Texts of a plan that say no step, no turn or no strike: why, and what would say one.

mod access;
mod argument;
mod form;
mod judge;
mod layout;
mod leading_names;
mod message;
mod number;
mod placed;
mod said;
mod step;
mod strike;
mod turn;

pub(crate) use placed::are_placed;
pub(crate) use said::text_words;
pub(crate) use strike::strikes_in;
