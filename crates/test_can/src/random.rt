//! Numbers for generated lists.

/// The next number of a sequence without order (Knuth's linear congruential generator).
pub fn next(number: u64) -> u64 {
    number
        .wrapping_mul(6_364_136_223_846_793_005)
        .wrapping_add(1_442_695_040_888_963_407)
}
