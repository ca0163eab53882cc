//! Links, their numbers, journals, lists that forget, and refused memory. The rows of links in `test_controller` have
//! what they carry, the ledgers at their ends, and the world of one link.

mod bounded_histories;
pub(crate) mod given;
mod journals;
mod numbers;
mod queues;
mod refusals;
