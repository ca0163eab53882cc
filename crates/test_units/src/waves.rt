//! Waves of logs that are written by hand.

mod few_bits;
