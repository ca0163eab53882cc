//! Where in its segment a level of a line is.

ghost use Rattle.std.specs.Prelude.{◌≡◌, ◌≤◌, ◌-◌, ◌∷◌, [], true, false};
ghost use Rattle.can_levels.specs.Segments.{segments_of};
ghost use Rattle.can_levels.specs.declared.segment.Segment.TheVariants.{Data};
ghost use Rattle.can_levels.specs.FramePlaces.{index_in, place_after};

use super::layout::CRC_LEVELS;
use super::place::segment_after;
use can_levels::FramePlace;

/// How many levels of its segment stand before the level at a place of a body and its CRC sequence, which have `count`
/// levels in all.
pub(crate) fn index_of(ext: bool, count: u8, place: u8) -> u8
    ensures { result ≡ index_in 0 (segments_of ext count) place }
{
    match place {
        0 => 0,
        1..=8 => place - 1,
        9..=11 => place - 9,
        12 | 13 => 0,
        _ if ext => extended_index(count, place),
        _ => standard_index(count, place),
    }
}

/// The same in a standard frame, after IDE.
fn standard_index(count: u8, place: u8) -> u8
    requires { 14 ≤ place }
    ensures { result ≡ index_in 0 (segments_of false count) place }
{
    match place {
        0..=14 => 0,
        15..=18 => place - 15,
        _ => late_index(19, count, place),
    }
}

/// The same in an extended frame, after IDE.
fn extended_index(count: u8, place: u8) -> u8
    requires { 14 ≤ place }
    ensures { result ≡ index_in 0 (segments_of true count) place }
{
    match place {
        0..=18 => place - 14,
        19..=26 => place - 19,
        27..=31 => place - 27,
        32..=34 => 0,
        35..=38 => place - 35,
        _ => late_index(39, count, place),
    }
}

/// The same of a level after the DLC, whose end this is, in either format.
fn late_index(head: u8, count: u8, place: u8) -> u8
    requires { head ≤ place }
    ensures { result ≡ index_in head ((count - 15, Data) ∷ []) place }
{
    let end = count.saturating_sub(CRC_LEVELS);
    if place < end {
        place - head
    } else {
        place.saturating_sub(end)
    }
}

/// The place of the n-th level after the stuffed part, counted from 0.
pub(crate) fn place_after(n: u8) -> FramePlace
    ensures { result ≡ place_after n }
{
    FramePlace::Plain(segment_after(n), n.saturating_sub(3))
}
