//! The names that plans have for the place of a node.

ghost use Rattle.std.specs.Prelude.{◌≡◌, ◌≤◌};
ghost use Rattle.sja_serial.specs.SerialPlaces.{name_of, named, named_in_frame};

use can_levels::{FramePlace, Segment};
use can_node_rules::NodePlace;
use sja_plan::Place;

/// The name of the place of a node's next bit.
pub(crate) fn named(place: NodePlace) -> Place
    ensures { result ≡ named place }
{
    match place {
        NodePlace::Start => Place::Sof,
        NodePlace::Srr => Place::Srr,
        NodePlace::InFrame(place) => named_in_frame(place),
        NodePlace::Intermission(bit) => Place::Intermission(usize::from(bit)),
    }
}

/// The name of a place in a frame.
fn named_in_frame(place: FramePlace) -> Place
    ensures { result ≡ named_in_frame place }
{
    match place {
        FramePlace::Plain(segment, index) => name_of(segment, usize::from(index)),
        FramePlace::StuffBit(number) => Place::Stuff(usize::from(number)),
    }
}

/// The name of the bit of a segment behind so many others of it. A flag and a delimiter aren't of a frame.
fn name_of(segment: Segment, index: usize) -> Place
    requires { index ≤ 255 }
    ensures { result ≡ name_of segment index }
{
    match segment {
        Segment::StartOfFrame => Place::Sof,
        Segment::Id28To21 => Place::Id(28usize.saturating_sub(index)),
        Segment::Id20To18 => Place::Id(20usize.saturating_sub(index)),
        Segment::RtrStandard | Segment::RtrExtended => Place::Rtr,
        Segment::Ide => Place::Ide,
        Segment::Id17To13 => Place::Id(17usize.saturating_sub(index)),
        Segment::Id12To5 => Place::Id(12usize.saturating_sub(index)),
        Segment::Id4To0 => Place::Id(4usize.saturating_sub(index)),
        Segment::Reserved1 => Place::R1,
        Segment::Reserved0 => Place::R0,
        Segment::DataLengthCode => Place::Dlc(3usize.saturating_sub(index)),
        Segment::Data => Place::Data(index / 8 + 1, 7 - index % 8),
        Segment::CrcSequence => Place::Crc(14usize.saturating_sub(index)),
        Segment::CrcDelimiter => Place::CrcDelimiter,
        Segment::AckSlot => Place::Ack,
        Segment::AckDelimiter => Place::AckDelimiter,
        Segment::EndOfFrame => Place::Eof(index + 1),
        Segment::ActiveErrorFlag | Segment::Delimiter | Segment::OverloadFlag => Place::Sof,
    }
}
