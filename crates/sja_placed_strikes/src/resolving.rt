//! [`resolved`]: a plan with its strikes by place struck at their bits.

ghost use Rattle.std.specs.Prelude.{◌≡◌, ◌<◌, ◌≤◌, ◌⊎◌, true, false, All, IfOk, IfErr, OnOk, IfSome, IfNone, length};
ghost use Rattle.sja_plan.specs.Limits.{most_strikes};
ghost use Rattle.sja_plan.specs.Plan.{times_in};
ghost use Rattle.sja_plan.specs.Struck.{struck_at};
ghost use Rattle.sja_plan.specs.declared.placed_strike.PlacedStrike.{PlacedStrike as Placed};
ghost use Rattle.text_frames.specs.FrameStories.{values_of};
ghost use Rattle.sja_placed_strikes.specs.Counting.{AreFew, AreMany, frame_count, place_count};
ghost use Rattle.sja_placed_strikes.specs.Resolving.{IsResolved, IsPlaceFault, HasFrames, last_sof};
ghost use Rattle.sja_placed_strikes.specs.declared.place_fault.PlaceFault.TheVariants.{NoPlace, StrikeCount, Memory};
ghost use Rattle.sja_placed_strikes.specs.Inside.Searching.{IsRunFault};

use super::aims::{aims_in, earliest};
use super::place_fault::PlaceFault;
use sja_plan::{PlacedStrike, Plan, StrikeRefusal, StruckFrames};
use sja_serial::run_serial;
use std::alloc::Global;
use text_frames::{StartedFrame, started_frames};

/// In how many frames strikes by place strike at most, all together (this project's own rule).
pub const MOST_PLACES: u64 = 1_000;

/// How many bits the runs that find them may come to, each counted with the bits that the plan gives it (this project's
/// own rule).
pub const MOST_PLACED_BITS: u64 = 100_000_000;

/// The plan with each of its strikes by place struck at its bit.
///
/// The plan is run in one thread, and of the places that are left the one that comes first in that run is struck there;
/// then it is run with that strike too, up to the last one. A strike changes nothing before its bit, so each place is
/// where it is in the run of the plan that comes of it.
///
/// Errors, the first that comes: [`PlaceFault::StrikeCount`] where the strikes strike in more frames than
/// [`MOST_PLACES`], or these times the plan's bits are more than [`MOST_PLACED_BITS`], or the plan has no room for one
/// strike more; [`PlaceFault::NoPlace`] where the run has none of the places that are left; [`PlaceFault::Run`] and
/// [`PlaceFault::Memory`] where memory was refused.
pub fn resolved(alloc: Global, plan: Plan, placed: &[PlacedStrike]) -> Result<Plan, PlaceFault>
    requires { All (λ (s : Placed). s.node < length plan.nodes) placed.now }
    ensures ok { IfOk result (IsResolved plan placed.now) }
    ensures few { OnOk result (AreFew plan.bits placed.now) }
    ensures err { IfErr result (IsPlaceFault plan placed.now) }
{
    if !are_few(plan.bits(), placed) {
        return Err(PlaceFault::StrikeCount);
    }
    let mut plan = plan;
    let mut aims = aims_in(alloc, placed)?;
    while !aims.is_empty() {
        let found = frames_of(alloc, &plan)?;
        let most = plan.bits();
        let Some((index, bit)) = earliest(found.as_slice(), most, aims.as_slice()) else {
            return Err(none_of(aims[0].item, found.as_slice()));
        };
        let aim = aims.remove(index);
        if let Err(fault) = strike(&mut plan, aim.node, bit) {
            return Err(fault);
        }
    }
    Ok(plan)
}

/// Whether strikes by place of a plan of so many bits aren't too many.
fn are_few(bits: u32, placed: &[PlacedStrike]) -> bool
    ensures yes { result ≡ true → AreFew bits placed.now }
    ensures no { result ≡ false → AreMany bits placed.now }
{
    match place_count(placed) {
        Some(count) => count * u64::from(bits) <= MOST_PLACED_BITS,
        None => false,
    }
}

/// In how many frames these strikes strike, where they are at most [`MOST_PLACES`].
fn place_count(placed: &[PlacedStrike]) -> Option<u64>
    ensures some { IfSome result (λ n. (n ≡ place_count placed.now) × (n ≤ 1000)) }
    ensures none { IfNone result (1000 < place_count placed.now) }
{
    let mut count = 0u64;
    for strike in placed {
        count += u64::from(frame_count(strike.frames));
        if count > MOST_PLACES {
            return None;
        }
    }
    Some(count)
}

/// In how many frames a place is struck.
fn frame_count(frames: StruckFrames) -> u32
    ensures { result ≡ frame_count frames }
{
    match frames {
        StruckFrames::Numbered(_) => 1,
        StruckFrames::First(times) => times,
    }
}

/// That a run which has these frames has no place of this strike.
fn none_of(item: usize, found: &[StartedFrame]) -> PlaceFault
    ensures { result ≡ NoPlace item (length found.now) (last_sof (values_of found.now)) }
{
    PlaceFault::NoPlace(item, found.len(), last_sof(found))
}

/// The SOF of the last one of these frames, if there is one.
fn last_sof(found: &[StartedFrame]) -> Option<u32>
    ensures { result ≡ last_sof (values_of found.now) }
{
    let mut last = None;
    for frame in found {
        last = Some(frame.sof);
    }
    last
}

/// The frames of the run of a plan.
fn frames_of(alloc: Global, plan: &Plan) -> Result<Vec<StartedFrame>, PlaceFault>
    ensures ok { IfOk result (λ found. HasFrames plan.now (values_of found.items)) }
    ensures err { IfErr result IsRunFault }
{
    let log = run_serial(alloc, plan)?;
    match started_frames(alloc, &log) {
        Ok(found) => Ok(found),
        Err(_) => Err(PlaceFault::Memory),
    }
}

/// One strike more.
fn strike(plan: &mut Plan, node: u8, bit: u32) -> Result<(), PlaceFault>
    requires { node < length plan.old.nodes }
    ensures struck { OnOk result (plan.new ≡ struck_at plan.old node bit) }
    ensures err { IfErr result (λ fault. (fault ≡ Memory)
        ⊎ ((fault ≡ StrikeCount) × (most_strikes plan.old.version ≤ times_in plan.old.strikes))) }
{
    match plan.strike(node, u64::from(bit)) {
        Ok(()) => Ok(()),
        Err(StrikeRefusal::StrikeCount) => Err(PlaceFault::StrikeCount),
        Err(_) => Err(PlaceFault::Memory),
    }
}
