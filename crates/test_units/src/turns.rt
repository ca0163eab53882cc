//! Runs in one thread, turn by turn.

mod bits;
mod long_runs;
mod starts;
