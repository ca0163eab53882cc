//! The places that strikes are at, and the first of them in a run.

ghost use Rattle.std.specs.Prelude.{◌≡◌, ◌++◌, length, IfOk, OnOk};
ghost use Rattle.text_frames.specs.FrameStories.{value_of, values_of};
ghost use Rattle.sja_placed_strikes.specs.Aims.{aim_at, aims_of, aims_in, bit_at, counts, number_of, within};
ghost use Rattle.sja_placed_strikes.specs.Inside.Searching.{IsEarliest, earlier};

use super::aim::Aim;
use super::aimed_frame::AimedFrame;
use super::frame_places::bit_of;
use sja_plan::{PlacedStrike, StruckFrames};
use std::alloc::{AllocError, Global};
use text_frames::StartedFrame;

/// The places that these strikes are at, one by one.
pub(crate) fn aims_in(alloc: Global, placed: &[PlacedStrike]) -> Result<Vec<Aim>, AllocError>
    ensures { IfOk result (λ aims. aims.items ≡ aims_in placed.now) }
{
    let mut aims = Vec::new(alloc);
    for strike in placed {
        push_aims(&mut aims, strike)?;
    }
    Ok(aims)
}

/// Those of a strike.
fn push_aims(aims: &mut Vec<Aim>, strike: &PlacedStrike) -> Result<(), AllocError>
    ensures { OnOk result (aims.new.items ≡ aims.old.items ++ aims_of strike.now) }
{
    match strike.frames {
        StruckFrames::Numbered(number) => aims.push(aim_at(strike, AimedFrame::OfAll(number)))?,
        StruckFrames::First(times) => {
            for index in 0..times {
                aims.push(aim_at(strike, AimedFrame::OfNode(index + 1)))?;
            }
        }
    }
    Ok(())
}

/// The place of a strike in one of its frames.
fn aim_at(strike: &PlacedStrike, frame: AimedFrame) -> Aim
    ensures { result ≡ aim_at strike.now frame }
{
    Aim {
        item: strike.item,
        node: strike.node,
        frame,
        place: strike.place,
    }
}

/// Which of these places comes first in a run of at most so many bits that has these frames, and at which bit. Of
/// several at one bit it is the first one.
pub(crate) fn earliest(found: &[StartedFrame], bits: u32, aims: &[Aim]) -> Option<(usize, u32)>
    ensures { IsEarliest (values_of found.now) bits aims.now (length aims.now) result }
{
    let mut first = None;
    for index in 0..aims.len() {
        first = earlier(first, index, bit_at(found, bits, &aims[index]));
    }
    first
}

/// The earlier one: this one, or the place of this index, if it is at a bit.
fn earlier(first: Option<(usize, u32)>, index: usize, bit: Option<u32>) -> Option<(usize, u32)>
    ensures { result ≡ earlier first index bit }
{
    match (first, bit) {
        (first, None) => first,
        (None, Some(bit)) => Some((index, bit)),
        (Some((other, at)), Some(bit)) => Some(if bit < at { (index, bit) } else { (other, at) }),
    }
}

/// The bit of a place in a run of at most so many bits that has these frames.
fn bit_at(found: &[StartedFrame], bits: u32, aim: &Aim) -> Option<u32>
    ensures { result ≡ bit_at (values_of found.now) bits aim.now }
{
    let mut left = number_of(aim.frame);
    for frame in found {
        if counts(aim, frame) {
            if left == 1 {
                return within(bits, bit_of(frame, aim.place));
            }
            left = left.saturating_sub(1);
        }
    }
    None
}

/// A bit, if it is one of the first so many.
fn within(bits: u32, bit: Option<u32>) -> Option<u32>
    ensures { result ≡ within bits bit }
{
    match bit {
        Some(bit) if bit < bits => Some(bit),
        _ => None,
    }
}

/// Whether a frame is one of those that are counted.
fn counts(aim: &Aim, frame: &StartedFrame) -> bool
    ensures { result ≡ counts aim.now.node aim.now.frame (value_of frame.now) }
{
    match aim.frame {
        AimedFrame::OfAll(_) => true,
        AimedFrame::OfNode(_) => frame.node == usize::from(aim.node),
    }
}

/// The number of the frame among these.
fn number_of(frame: AimedFrame) -> u32
    ensures { result ≡ number_of frame }
{
    match frame {
        AimedFrame::OfAll(number) | AimedFrame::OfNode(number) => number,
    }
}
