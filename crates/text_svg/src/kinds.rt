//! What a bit of a node is.

ghost use Rattle.std.specs.Prelude.{◌≡◌};
ghost use Rattle.text_svg.specs.Kinds.{field_kind, kind_of_flag, frame_kind, phase_kind, kind_of};

use super::kind::Kind;
use can_node_rules::{FlagKind, Phase};
use sja_replay::BitEvent;
use text_frames::Field;
use text_trace::is_start;

/// What a bit is that came after five equal levels or not.
pub(crate) fn kind_of(after_five: bool, bit: &BitEvent) -> Kind
    ensures { result ≡ kind_of after_five bit.now }
{
    if is_start(bit) {
        return Kind::StartBit;
    }
    phase_kind(after_five, bit)
}

/// What a bit is that isn't SOF, by what the node showed before it.
fn phase_kind(after_five: bool, bit: &BitEvent) -> Kind
    ensures { result ≡ phase_kind bit.now.before.phase after_five bit.now }
{
    match bit.before.phase {
        Phase::Reset => Kind::ResetBit,
        Phase::Waiting => Kind::WaitingBit,
        Phase::Idle => Kind::IdleBit,
        Phase::Frame => frame_kind(after_five, Field::of(bit)),
        Phase::Flag => kind_of_flag(bit.before.flag),
        Phase::Delimiter => Kind::FlagEnd,
        Phase::Intermission => Kind::GapBit,
        Phase::Suspension => Kind::SuspendedBit,
    }
}

/// What a bit of this field is.
fn frame_kind(after_five: bool, field: Field) -> Kind
    ensures { result ≡ frame_kind after_five field }
{
    if field.is_stuffed() && after_five {
        Kind::StuffBit
    } else {
        field_kind(field)
    }
}

/// What the bits of a field are.
fn field_kind(field: Field) -> Kind
    ensures { result ≡ field_kind field }
{
    match field {
        Field::Start => Kind::StartBit,
        Field::Identifier | Field::Extension => Kind::IdentifierBit,
        Field::FirstRemote | Field::SecondRemote => Kind::RemoteBit,
        Field::Format | Field::SecondReserved | Field::FirstReserved | Field::Length => {
            Kind::ControlBit
        }
        Field::Bytes => Kind::DataBit,
        Field::CrcSequence | Field::CrcDelimiter => Kind::CheckBit,
        Field::AckSlot | Field::AckDelimiter => Kind::AckBit,
        Field::Eof => Kind::EndBit,
        Field::Intermission => Kind::GapBit,
    }
}

/// What the bits of a flag are.
fn kind_of_flag(flag: FlagKind) -> Kind
    ensures { result ≡ kind_of_flag flag }
{
    match flag {
        FlagKind::ActiveError => Kind::ActiveFlag,
        FlagKind::PassiveError => Kind::PassiveFlag,
        FlagKind::Overload => Kind::OverloadFlag,
    }
}
