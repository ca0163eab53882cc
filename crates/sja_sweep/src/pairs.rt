//! What a sweep of pairs of strikes tries, node by node, by how many bits the second strike is later, and bit by bit.

ghost use Rattle.std.specs.Prelude.{◌≡◌, ◌+◌, ◌^◌, ◌<◌, ◌≤◌, ◌++◌, length, OnOk};
ghost use Rattle.sja_sweep.specs.Targets.{least_later};
ghost use Rattle.sja_sweep.specs.Inside.Asking.{bits_paired, laters_paired, others_paired, all_paired};

use super::strike_range::{StrikeRange, end_of};
use super::target::Target;
use super::trial::Trial;
use std::alloc::AllocError;

/// Adds each pair of strikes that are at most so many bits apart.
pub(crate) fn push_pairs(
    trials: &mut Vec<Trial>,
    within: u32,
    asked: StrikeRange,
) -> Result<(), AllocError>
    requires low { asked.from ≤ asked.end }
    requires high { asked.end ≤ 256 }
    requires room { asked.first + asked.count < 2 ^ 32 }
    ensures { OnOk result (trials.new.items ≡ trials.old.items ++ all_paired within asked) }
{
    for node in asked.from..asked.end {
        push_others(trials, within, asked, node as u8)?;
    }
    Ok(())
}

/// Adds the pairs of a node with each node.
fn push_others(
    trials: &mut Vec<Trial>,
    within: u32,
    asked: StrikeRange,
    node: u8,
) -> Result<(), AllocError>
    requires low { asked.from ≤ asked.end }
    requires high { asked.end ≤ 256 }
    requires room { asked.first + asked.count < 2 ^ 32 }
    ensures { OnOk result (trials.new.items ≡ trials.old.items ++ others_paired within asked node) }
{
    for other in asked.from..asked.end {
        push_laters(trials, within, asked, node, other as u8)?;
    }
    Ok(())
}

/// Adds the pairs of a node with one that is struck in the same bit or later.
fn push_laters(
    trials: &mut Vec<Trial>,
    within: u32,
    asked: StrikeRange,
    node: u8,
    other: u8,
) -> Result<(), AllocError>
    requires { asked.first + asked.count < 2 ^ 32 }
    ensures { OnOk result (trials.new.items ≡ trials.old.items ++ laters_paired within asked node other) }
{
    let end = end_of(within, asked.count);
    for later in least_later(node, other)..end {
        push_bits(trials, asked, node, other, later)?;
    }
    Ok(())
}

/// By how many bits the second node is struck later at least: in one bit the lower node is the first one.
pub(crate) fn least_later(node: u8, other: u8) -> u32
    ensures is { result ≡ least_later node other }
    ensures few { result ≤ 1 }
{
    if node < other { 0 } else { 1 }
}

/// Adds the pairs of a node with one that is struck so many bits later.
fn push_bits(
    trials: &mut Vec<Trial>,
    asked: StrikeRange,
    node: u8,
    other: u8,
    later: u32,
) -> Result<(), AllocError>
    requires room { asked.first + asked.count < 2 ^ 32 }
    requires later { later ≤ asked.count }
    ensures { OnOk result (trials.new.items ≡ trials.old.items ++ bits_paired asked node other later) }
{
    for bit in asked.first..asked.first + (asked.count - later) {
        let first = Target { node, bit };
        let second = Target {
            node: other,
            bit: bit + later,
        };
        trials.push(Trial {
            first,
            second: Some(second),
        })?;
    }
    Ok(())
}
