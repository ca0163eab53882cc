//! Of `sja_replay`: journals written by hand, and what their bits brought.
//!
//! What a sweep tells of whole runs by them is tested in `sweeps`. Expected values are worked by hand from the
//! standard.

mod breaking_off;
mod given;
mod passing;
mod receptions;
