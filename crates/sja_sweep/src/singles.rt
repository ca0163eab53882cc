//! What a sweep of single strikes tries, and how many runs that is.

ghost use Rattle.std.specs.Prelude.{◌≡◌, ◌+◌, ◌^◌, ◌<◌, ◌≤◌, ◌++◌, length, OnOk};
ghost use Rattle.sja_sweep.specs.Inside.Asking.{bits_alone, all_alone};

use super::strike_range::StrikeRange;
use super::target::Target;
use super::trial::Trial;
use std::alloc::AllocError;

/// How many runs a sweep of single strikes has.
pub(crate) fn count_alone(asked: StrikeRange) -> u128
    requires low { asked.from ≤ asked.end }
    requires high { asked.end ≤ 256 }
    ensures is { result ≡ length (all_alone asked) }
    ensures few { result ≤ 2 ^ 80 }
{
    let mut runs = 0u128;
    for node in asked.from..asked.end {
        runs += u128::from(asked.count);
    }
    runs
}

/// Adds each node in each bit.
pub(crate) fn push_alone(trials: &mut Vec<Trial>, asked: StrikeRange) -> Result<(), AllocError>
    requires low { asked.from ≤ asked.end }
    requires high { asked.end ≤ 256 }
    requires room { asked.first + asked.count < 2 ^ 32 }
    ensures { OnOk result (trials.new.items ≡ trials.old.items ++ all_alone asked) }
{
    for node in asked.from..asked.end {
        push_bits(trials, asked, node as u8)?;
    }
    Ok(())
}

/// Adds a node in each bit.
fn push_bits(trials: &mut Vec<Trial>, asked: StrikeRange, node: u8) -> Result<(), AllocError>
    requires { asked.first + asked.count < 2 ^ 32 }
    ensures { OnOk result (trials.new.items ≡ trials.old.items ++ bits_alone asked node) }
{
    for bit in asked.first..asked.first + asked.count {
        let first = Target { node, bit };
        trials.push(Trial {
            first,
            second: None,
        })?;
    }
    Ok(())
}
