//! The limits of a plan. Each is this project's own rule. How many nodes there are at most is
//! [`MOST_NODES`](sja_steps::MOST_NODES).

ghost use Rattle.std.specs.Prelude.{◌≡◌, ◌≤◌};
ghost use Rattle.sja_plan.specs.Limits.{most_bits, most_steps, most_turns, most_strikes};

/// How many bits a run has at most in version 1 and 2 (this project's own rule).
pub const MOST_BITS: u32 = 200_000;

/// How many steps the driver of a node has at most in version 1 and 2 (this project's own rule).
pub const MOST_STEPS: usize = 1_000;

/// How many turns a serial run has at most in version 1 and 2 (this project's own rule).
pub const MOST_TURNS: usize = 10_000;

/// How many bits the strikes strike at most in version 1 and 2, each counted as often as it strikes (this project's
/// own rule).
pub const MOST_STRIKES: u32 = 1_000;

/// The first version of the rules with the greater limits below (this project's own rule).
pub const FIRST_BY_BYTES: u8 = 3;

/// How many bits a run has at most in version 3 (this project's own rule).
pub const MOST_BITS_BY_BYTES: u32 = 2_000_000;

/// How many steps the driver of a node has at most in version 3 (this project's own rule).
pub const MOST_STEPS_BY_BYTES: usize = 65_535;

/// How many turns a serial run has at most in version 3 (this project's own rule).
pub const MOST_TURNS_BY_BYTES: usize = 200_000;

/// How many bits the strikes strike at most in version 3, each counted as often as it strikes (this project's own
/// rule).
pub const MOST_STRIKES_BY_BYTES: u32 = 100_000;

/// How many bits a run of this version has at most.
pub fn most_bits(version: u8) -> u32
    ensures value { result ≡ most_bits version }
    ensures few { result ≤ 2000000 }
{
    if version < FIRST_BY_BYTES {
        MOST_BITS
    } else {
        MOST_BITS_BY_BYTES
    }
}

/// How many steps the driver of a node has at most in this version.
pub fn most_steps(version: u8) -> usize
    ensures value { result ≡ most_steps version }
    ensures few { result ≤ 65535 }
{
    if version < FIRST_BY_BYTES {
        MOST_STEPS
    } else {
        MOST_STEPS_BY_BYTES
    }
}

/// How many turns a serial run of this version has at most.
pub fn most_turns(version: u8) -> usize
    ensures value { result ≡ most_turns version }
    ensures few { result ≤ 200000 }
{
    if version < FIRST_BY_BYTES {
        MOST_TURNS
    } else {
        MOST_TURNS_BY_BYTES
    }
}

/// How many bits the strikes of this version strike at most, each counted as often as it strikes.
pub fn most_strikes(version: u8) -> u32
    ensures value { result ≡ most_strikes version }
    ensures few { result ≤ 100000 }
{
    if version < FIRST_BY_BYTES {
        MOST_STRIKES
    } else {
        MOST_STRIKES_BY_BYTES
    }
}
