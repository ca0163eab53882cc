//! Which of several frames go on, and where the others lose arbitration.

ghost use Rattle.std.specs.Prelude.{◌≡◌, ◌<◌, ◌↔◌, ℕ, IfOk, IsTrue, MatchOption, length, slice_get};
ghost use Rattle.can_frame.specs.Frame.{FrameValue};
ghost use Rattle.can_node_rules.specs.Contending.{arbitration_field, IsContention, IsLeast, LosesAt};

use super::arbitration_field::{LONGEST_FIELD, field_level};
use can_frame::{Frame, OutOfMemory};
use can_levels::Level;
use std::alloc::Global;

/// What becomes of these frames if their transmitters start together on one bus: for each, in order, the place code
/// where it loses arbitration, or nothing where it goes on. Those go on whose arbitration field is least, if dominant
/// comes before recessive (Bosch CAN 2.0 part A section 3.1.1 and part B section 3.2).
///
/// Place codes (SJA1000 data sheet, 6.4.8, arbitration lost capture): 0 to 10 for ID.28 to ID.18, 11 for RTR of a
/// standard frame or SRR, 12 for IDE, 13 to 30 for ID.17 to ID.0, 31 for RTR of an extended frame.
///
/// The room of the answer is reserved at once. Answers [`OutOfMemory`] where that was refused.
pub fn contend(alloc: Global, frames: &[Frame]) -> Result<Vec<Option<u8>>, OutOfMemory>
    ensures { IfOk result (λ places. IsContention frames.now places.items) }
{
    let mut places = Vec::with_capacity(alloc, frames.len())?;
    if !frames.is_empty() {
        let least = &frames[least_of(frames)];
        for frame in frames {
            places.push_reserved(place_lost(frame, least));
        }
    }
    Ok(places)
}

/// The place in the list of the first of its least frames.
fn least_of(frames: &[Frame]) -> usize
    requires { 0 < length frames.now }
    ensures within { result < length frames.now }
    ensures is_least { (f : FrameValue) → slice_get frames.now result ≡ Some f → IsLeast frames.now f }
{
    let mut least = 0;
    for i in 1..frames.len() {
        if place_lost(&frames[least], &frames[i]).is_some() {
            least = i;
        }
    }
    least
}

/// The place where a frame loses arbitration to another; nothing where it doesn't.
fn place_lost(own: &Frame, other: &Frame) -> Option<u8>
    ensures { MatchOption result ((n : ℕ) → ¬ LosesAt (arbitration_field own.now) (arbitration_field other.now) n)
        (λ n. LosesAt (arbitration_field own.now) (arbitration_field other.now) n) }
{
    for place in 0..LONGEST_FIELD {
        let driven = field_level(own, place);
        let seen = field_level(other, place);
        if is_lost(driven, seen) {
            return Some(place);
        }
        if driven != seen {
            return None;
        }
    }
    None
}

/// Whether a recessive level is lost to a dominant one.
fn is_lost(driven: Option<Level>, seen: Option<Level>) -> bool
    ensures { IsTrue result ↔ ((driven ≡ Some Level.Recessive) × (seen ≡ Some Level.Dominant)) }
{
    match (driven, seen) {
        (Some(Level::Recessive), Some(Level::Dominant)) => true,
        _ => false,
    }
}
