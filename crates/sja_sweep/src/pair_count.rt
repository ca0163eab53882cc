//! How many runs a sweep of pairs of strikes has: they are counted before they are made, since there may be very many.

ghost use Rattle.std.specs.Prelude.{◌≡◌, ◌+◌, ◌^◌, ◌<◌, ◌≤◌, length};
ghost use Rattle.sja_sweep.specs.Inside.Asking.{laters_paired, others_paired, all_paired};

use super::pairs::least_later;
use super::strike_range::{StrikeRange, end_of};

/// How many pairs of strikes there are that are at most so many bits apart.
pub(crate) fn count_pairs(within: u32, asked: StrikeRange) -> u128
    requires low { asked.from ≤ asked.end }
    requires high { asked.end ≤ 256 }
    ensures is { result ≡ length (all_paired within asked) }
    ensures few { result ≤ 2 ^ 80 }
{
    let mut runs = 0u128;
    for node in asked.from..asked.end {
        runs += count_others(within, asked, node as u8);
    }
    runs
}

/// How many there are of a node with each node.
fn count_others(within: u32, asked: StrikeRange, node: u8) -> u128
    requires low { asked.from ≤ asked.end }
    requires high { asked.end ≤ 256 }
    ensures is { result ≡ length (others_paired within asked node) }
    ensures few { result ≤ 2 ^ 72 }
{
    let mut runs = 0u128;
    for other in asked.from..asked.end {
        runs += count_laters(within, asked, node, other as u8);
    }
    runs
}

/// How many there are of a node with one that is struck in the same bit or later.
fn count_laters(within: u32, asked: StrikeRange, node: u8, other: u8) -> u128
    ensures is { result ≡ length (laters_paired within asked node other) }
    ensures few { result ≤ 2 ^ 64 }
{
    let end = end_of(within, asked.count);
    let mut runs = 0u128;
    for later in least_later(node, other)..end {
        runs += u128::from(asked.count - later);
    }
    runs
}
