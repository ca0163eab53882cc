//! The calls of `c/sja.h` as functions of C: a static library, thin over `sja_calls`.
//!
//! A handle is a pointer to a [`Handle`](sja_calls::Handle) on the heap of the C library, with the right to
//! free it (`specs/Handles.antt`): `sja_make` makes one, and each call takes it and gives it back. `sja_let_go` leaves
//! nothing of the session but its block, which `sja_free` of the header gives back to the C library. A null handle is
//! answered.
//! The proofs of the functions that make or take a handle are walks by hand.
#![tactic(auto)]

mod accesses;
mod answer;
mod bits;
mod life;
mod loose;
mod new_handle;
mod placing;
mod texts;

pub use answer::SjaAnswer;
