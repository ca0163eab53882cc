//! Links of two rings: ends that are gone, ends in two threads, and refused memory. The rows of links in
//! `test_controller` have what they carry, what is left on them, and the ledgers at their ends.

mod given;
mod gone;
mod refusals;
mod threads;
