//! The names of segments, errors, flags, levels and roles, and why a step is ignored.

ghost use Rattle.std.specs.Prelude.{◌≡◌};
ghost use Rattle.text_trace.specs.Names.{segment_name, cause_name, flag_name, level_name, role_name};
ghost use Rattle.text_trace.specs.Names.{ignored_name};

use can_levels::{Level, Segment};
use can_node_rules::{Cause, FlagKind};
use sja_steps::Ignored;

/// The name of a segment (SJA1000 data sheet, 6.4.9).
pub fn segment_name(segment: Segment) -> &'static str
    ensures { result.now ≡ segment_name segment }
{
    match segment {
        Segment::StartOfFrame => "SOF",
        Segment::Id28To21 => "ID.28 to ID.21",
        Segment::Id20To18 => "ID.20 to ID.18",
        Segment::RtrStandard => "SRTR",
        Segment::Ide => "IDE",
        Segment::Id17To13 => "ID.17 to ID.13",
        Segment::Id12To5 => "ID.12 to ID.5",
        Segment::Id4To0 => "ID.4 to ID.0",
        Segment::RtrExtended => "RTR",
        Segment::Reserved1 => "reserved bit 1",
        Segment::Reserved0 => "reserved bit 0",
        Segment::DataLengthCode => "DLC",
        Segment::Data => "data field",
        Segment::CrcSequence => "CRC sequence",
        Segment::CrcDelimiter => "CRC delimiter",
        Segment::AckSlot => "ACK slot",
        Segment::AckDelimiter => "ACK delimiter",
        Segment::EndOfFrame => "EOF",
        Segment::ActiveErrorFlag => "error flag",
        Segment::Delimiter => "delimiter",
        Segment::OverloadFlag => "overload flag",
    }
}

/// The name of an error (Bosch CAN 2.0 part A section 6.1).
pub fn cause_name(cause: Cause) -> &'static str
    ensures { result.now ≡ cause_name cause }
{
    match cause {
        Cause::Bit => "bit error",
        Cause::Stuff => "stuff error",
        Cause::Form => "form error",
        Cause::Crc => "CRC error",
        Cause::Ack => "ACK error",
    }
}

/// The name of a flag (Bosch CAN 2.0 part A sections 3.1.3 and 3.1.4).
pub(crate) fn flag_name(flag: FlagKind) -> &'static str
    ensures { result.now ≡ flag_name flag }
{
    match flag {
        FlagKind::ActiveError => "active error flag",
        FlagKind::PassiveError => "passive error flag",
        FlagKind::Overload => "overload flag",
    }
}

/// The name of a level.
pub(crate) fn level_name(level: Level) -> &'static str
    ensures { result.now ≡ level_name level }
{
    match level {
        Level::Dominant => "dominant",
        Level::Recessive => "recessive",
    }
}

/// The role of a node.
pub(crate) fn role_name(receiving: bool) -> &'static str
    ensures { result.now ≡ role_name receiving }
{
    if receiving { "receiver" } else { "transmitter" }
}

/// Why a controller ignores a step (SJA1000 data sheet, 6.4.1 to 6.4.5).
pub(crate) fn ignored_name(ignored: Ignored) -> &'static str
    ensures { result.now ≡ ignored_name ignored }
{
    match ignored {
        Ignored::ReadOnly => "read only",
        Ignored::WriteOnly => "write only",
        Ignored::ResetOnly => "reset mode alone",
        Ignored::ActiveOnly => "no command in reset mode",
        Ignored::ListenOnly => "listen only mode",
        Ignored::Locked => "TBS is 0",
        Ignored::Empty => "no message",
    }
}
