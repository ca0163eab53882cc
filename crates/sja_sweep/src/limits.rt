//! The limits of a sweep. Each is this project's own rule.

/// How many runs a sweep has at most, unless more are meant (this project's own rule).
pub const MOST_RUNS: usize = 20_000;

/// How many bits the runs of a sweep may come to, unless more are meant: each run counts with the bits that its plan
/// gives it (this project's own rule).
pub const MOST_SWEPT_BITS: u128 = 2_000_000_000;
