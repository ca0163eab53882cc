//! The bits of all nodes.

ghost use Rattle.std.specs.Prelude.{◌<◌, ◌≤◌, Bool, [], IfOk};
ghost use Rattle.lemmas.specs.Related.{EachRelated};
ghost use Rattle.text_candump.specs.Inside.CandumpProgress.{IsUpTo, AreUnderway, AllStay, GoesOn, RestsBy, GoesToEnd};

use super::driver_bits::DriverBits;
use sja_log::NodeRun;
use std::alloc::{AllocError, Global};

/// The bits of all nodes of a run, before the first one.
pub(crate) fn bits_of<'a>(
    alloc: Global,
    nodes: &'a [NodeRun],
) -> Result<Vec<DriverBits<'a>>, AllocError>
    ensures { IfOk result (λ all. (errors : Bool) → IsUpTo errors nodes.now 0 all.items []) }
{
    let mut all = Vec::new(alloc);
    for node in nodes {
        all.push(DriverBits::of(node))?;
    }
    Ok(all)
}

/// Each goes on past its next bit, where nothing is told of it perhaps without having it at hand.
pub(crate) fn pass_on_all(all: &mut [DriverBits<'_>])
    ensures { EachRelated GoesOn all.old all.new }
{
    for k in 0..all.len() {
        all[k].pass_on();
    }
}

/// Goes on past bits, at most so many, in which every node stays at rest and none is bus-off. Answers how many; it may
/// be that more of them follow.
pub(crate) fn rest_on(all: &mut [DriverBits<'_>], most: u32) -> u32
    ensures most { result ≤ most }
    ensures rested { EachRelated (RestsBy result) all.old all.new }
{
    let count = rest_for_all(all, most);
    if count == 0 {
        return 0;
    }
    rest_all(all, count);
    count
}

/// For how many of the next bits, at most so many, every node stays at rest and none is bus-off. It may be for more of
/// them.
fn rest_for_all(all: &[DriverBits<'_>], most: u32) -> u32
    ensures most { result ≤ most }
    ensures rests { 0 < result → AllStay result all.now }
{
    let mut count = most;
    for bits in all {
        if count == 0 {
            return 0;
        }
        count = bits.rest_for(count);
    }
    count
}

/// Each goes on past so many of these bits.
fn rest_all(all: &mut [DriverBits<'_>], count: u32)
    requires { AllStay count all.old }
    ensures { EachRelated (RestsBy count) all.old all.new }
{
    for k in 0..all.len() {
        all[k].rest(count);
    }
}

/// Each goes on to its end.
pub(crate) fn finish_all(all: &mut [DriverBits<'_>])
    requires { AreUnderway all.old }
    ensures { EachRelated GoesToEnd all.old all.new }
{
    for k in 0..all.len() {
        all[k].finish();
    }
}
