//! From which version on drivers know addresses and bytes alone, and how many acts their steps are.

ghost use Rattle.std.specs.Prelude.{◌≡◌, ◌<◌, ◌^◌, ◌↔◌, IsSome, IfSome};
ghost use Rattle.sja_driver.specs.StepRuns.{by_bytes, most_acts};

/// The first version in which reads and writes are those of addresses and bytes.
const FIRST_BY_BYTES: u8 = 3;

/// The most acts that a step is then: those of a write.
const MOST_DEEDS: u64 = 3;

/// Whether the drivers of this version know addresses and bytes alone.
pub fn by_bytes(version: u8) -> bool
    ensures { result ≡ by_bytes version }
{
    version >= FIRST_BY_BYTES
}

/// How many acts so many steps may be, in this version; none where these are more than 64 bits count.
pub fn most_acts(version: u8, steps: u64) -> Option<u64>
    ensures fits { IsSome result ↔ (most_acts version steps < 2 ^ 64) }
    ensures value { IfSome result (λ acts. acts ≡ most_acts version steps) }
{
    if by_bytes(version) {
        steps.checked_mul(MOST_DEEDS)
    } else {
        Some(steps)
    }
}
