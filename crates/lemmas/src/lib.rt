//! What the crates above share on lists, their places and results: definitions in `specs`, lemmas in `proofs`.
//!
//! It has no function. A lemma that the kit has isn't here.
#![tactic(auto)]
