//! [`SEGMENTS`]: the segments by their names, for rows that say one.

use can_levels::Segment;

/// The segments by their names.
pub const SEGMENTS: [(&str, Segment); 21] = [
    ("StartOfFrame", Segment::StartOfFrame),
    ("Id28To21", Segment::Id28To21),
    ("Id20To18", Segment::Id20To18),
    ("RtrStandard", Segment::RtrStandard),
    ("Ide", Segment::Ide),
    ("Id17To13", Segment::Id17To13),
    ("Id12To5", Segment::Id12To5),
    ("Id4To0", Segment::Id4To0),
    ("RtrExtended", Segment::RtrExtended),
    ("Reserved1", Segment::Reserved1),
    ("Reserved0", Segment::Reserved0),
    ("DataLengthCode", Segment::DataLengthCode),
    ("Data", Segment::Data),
    ("CrcSequence", Segment::CrcSequence),
    ("CrcDelimiter", Segment::CrcDelimiter),
    ("AckSlot", Segment::AckSlot),
    ("AckDelimiter", Segment::AckDelimiter),
    ("EndOfFrame", Segment::EndOfFrame),
    ("ActiveErrorFlag", Segment::ActiveErrorFlag),
    ("Delimiter", Segment::Delimiter),
    ("OverloadFlag", Segment::OverloadFlag),
];
