//! The segments of a line, by place.

ghost use Rattle.std.specs.Prelude.{◌≡◌, ◌≤◌, ◌-◌, ◌∷◌, [], true, false};
ghost use Rattle.can_levels.specs.Segments.{segment_in, segments_of, segment_after};

use super::layout::CRC_LEVELS;
use can_levels::Segment;

/// The segment of the level at a place of a body and its CRC sequence, which have `count` levels in all.
pub(crate) fn segment_of(ext: bool, count: u8, place: u8) -> Segment
    ensures { result ≡ segment_in (segments_of ext count) place }
{
    match place {
        0 => Segment::StartOfFrame,
        1..=8 => Segment::Id28To21,
        9..=11 => Segment::Id20To18,
        12 => Segment::RtrStandard,
        13 => Segment::Ide,
        _ if ext => extended_segment(count, place),
        _ => standard_segment(count, place),
    }
}

/// The same in a standard frame, after IDE.
fn standard_segment(count: u8, place: u8) -> Segment
    requires { 14 ≤ place }
    ensures { result ≡ segment_in (segments_of false count) place }
{
    match place {
        0..=14 => Segment::Reserved0,
        15..=18 => Segment::DataLengthCode,
        _ => late_segment(count, place),
    }
}

/// The same in an extended frame, after IDE.
fn extended_segment(count: u8, place: u8) -> Segment
    requires { 14 ≤ place }
    ensures { result ≡ segment_in (segments_of true count) place }
{
    match place {
        0..=18 => Segment::Id17To13,
        19..=26 => Segment::Id12To5,
        27..=31 => Segment::Id4To0,
        32 => Segment::RtrExtended,
        33 => Segment::Reserved1,
        34 => Segment::Reserved0,
        35..=38 => Segment::DataLengthCode,
        _ => late_segment(count, place),
    }
}

/// The segment of a level after the DLC, in either format.
fn late_segment(count: u8, place: u8) -> Segment
    ensures { result ≡ segment_in ((count - 15, Segment.Data) ∷ []) place }
{
    if place < count.saturating_sub(CRC_LEVELS) {
        Segment::Data
    } else {
        Segment::CrcSequence
    }
}

/// The segment of the n-th level after the stuffed part, counted from 0.
pub(crate) fn segment_after(n: u8) -> Segment
    ensures { result ≡ segment_after n }
{
    match n {
        0 => Segment::CrcDelimiter,
        1 => Segment::AckSlot,
        2 => Segment::AckDelimiter,
        _ => Segment::EndOfFrame,
    }
}
