//! What a sweep tries, and how many runs that is.

ghost use Rattle.std.specs.Prelude.{◌≡◌, ◌^◌, ◌≤◌, length, IfOk};
ghost use Rattle.sja_sweep.specs.Targets.{trials_of};
ghost use Rattle.sja_sweep.specs.Inside.Asking.{IsAsked};

use super::pair_count::count_pairs;
use super::pairs::push_pairs;
use super::singles::{count_alone, push_alone};
use super::strike_range::StrikeRange;
use super::sweeping::Sweeping;
use super::trial::Trial;
use std::alloc::{AllocError, Global};

/// How many runs a sweep has beside the one of the plan as it is.
#[tactic(auto, using(crate::proofs::TriedStrikes::TrialLemmas::both_asked))]
pub(crate) fn run_count(sweeping: &Sweeping, nodes: usize, bits: u32, asked: StrikeRange) -> u128
    requires { IsAsked sweeping.now nodes bits asked }
    ensures is { result ≡ length (trials_of sweeping.now nodes bits) }
    ensures few { result ≤ 2 ^ 80 }
{
    match sweeping.pairs {
        None => count_alone(asked),
        Some(within) => count_pairs(within, asked),
    }
}

/// What a sweep tries, in order.
#[tactic(auto, using(crate::proofs::TriedStrikes::TrialLemmas::both_asked))]
pub(crate) fn trials_of(
    alloc: Global,
    sweeping: &Sweeping,
    nodes: usize,
    bits: u32,
    asked: StrikeRange,
) -> Result<Vec<Trial>, AllocError>
    requires { IsAsked sweeping.now nodes bits asked }
    ensures { IfOk result (λ trials. trials.items ≡ trials_of sweeping.now nodes bits) }
{
    let mut trials = Vec::new(alloc);
    match sweeping.pairs {
        None => push_alone(&mut trials, asked)?,
        Some(within) => push_pairs(&mut trials, within, asked)?,
    }
    Ok(trials)
}
