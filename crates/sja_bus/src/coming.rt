//! Whom the strikes of a list hit in a bit, and when the next of them comes.

ghost use Rattle.std.specs.Prelude.{◌≡◌, ◌+◌, ◌^◌, ◌<◌, ◌≤◌, ◌⊎◌, ◌↔◌, ℕ, IsTrue, IfSome, IfNone, false};
ghost use Rattle.sja_steps.specs.Striking.{Hits, IsRepeated, Strikes};
ghost use Rattle.sja_bus.specs.Inside.StrikesByBit.{HasPassed, IsAmong, IsUnhit, IsUnstruck};

use super::struck_nodes::StruckNodes;
use sja_steps::{MOST_NODES, Strike};

/// The nodes that some of these strikes hit in this bit are struck too.
pub(crate) fn struck_by(strikes: &[Strike], bit: u64, nodes: &mut StruckNodes)
    requires { bit ≤ 2 ^ 62 }
    ensures { (node : ℕ) → node < 8 →
        IsAmong node nodes.new ↔ (IsAmong node nodes.old ⊎ Strikes strikes.now bit node) }
{
    for strike in strikes {
        strike_in(strike, bit, nodes);
    }
}

/// The node that the strike hits in this bit, if any, is struck too.
fn strike_in(strike: &Strike, bit: u64, nodes: &mut StruckNodes)
    requires { bit ≤ 2 ^ 62 }
    ensures { (node : ℕ) → node < 8 →
        IsAmong node nodes.new ↔ (IsAmong node nodes.old ⊎ Hits strike.now bit node) }
{
    if strike.node >= MOST_NODES {
        return;
    }
    if let Some(next) = next_time(strike, bit) {
        if next == bit {
            nodes.add(usize::from(strike.node));
        }
    }
}

/// The first bit from this one on that one of these strikes hits, or `end`, where that is earlier.
pub(crate) fn next_strike(strikes: &[Strike], from: u64, end: u64) -> u64
    requires within { from ≤ end }
    requires counted { from ≤ 2 ^ 62 }
    ensures on { from ≤ result }
    ensures within { result ≤ end }
    ensures quiet { IsUnstruck strikes.now from result }
    ensures stop { (result ≡ end) ⊎ ((node : ℕ) × (node < 8) × Strikes strikes.now result node) }
{
    let mut next = end;
    for strike in strikes {
        next = sooner(strike, from, next);
    }
    next
}

/// The first bit from this one on in which the strike hits one of eight nodes, or `end`, where that is earlier.
fn sooner(strike: &Strike, from: u64, end: u64) -> u64
    requires within { from ≤ end }
    requires counted { from ≤ 2 ^ 62 }
    ensures on { from ≤ result }
    ensures within { result ≤ end }
    ensures quiet { IsUnhit strike.now from result }
    ensures stop { (result ≡ end) ⊎ ((strike.now.node < 8) × Hits strike.now result strike.now.node) }
{
    if strike.node >= MOST_NODES {
        return end;
    }
    match next_time(strike, from) {
        Some(bit) => bit.min(end),
        None => end,
    }
}

/// Whether the strike hits a bit from this one on.
pub(crate) fn is_coming(strike: &Strike, from: u64) -> bool
    requires { from ≤ 2 ^ 62 }
    ensures { result ≡ false → HasPassed strike.now from }
{
    next_time(strike, from).is_some()
}

/// The first bit from this one on that the strike hits.
fn next_time(strike: &Strike, from: u64) -> Option<u64>
    requires { from ≤ 2 ^ 62 }
    ensures some { IfSome result (λ bit. (from ≤ bit) × Hits strike.now bit strike.now.node
        × IsUnhit strike.now from bit) }
    ensures none { IfNone result (HasPassed strike.now from) }
{
    let first = strike.bit;
    if from <= first {
        return if strike.times > 0 { Some(first) } else { None };
    }
    let every = u64::from(strike.every);
    if every == 0 {
        return None;
    }
    let passed = (from - first - 1) / every + 1;
    if passed < u64::from(strike.times) {
        Some(first + passed * every)
    } else {
        None
    }
}
