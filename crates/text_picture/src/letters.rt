//! The letter of a bit of a node.

ghost use Rattle.std.specs.Prelude.{◌≡◌};
ghost use Rattle.text_picture.specs.Letters.{field_letter, flag_letter, frame_letter, letter};
ghost use Rattle.text_picture.specs.Drawing.{shown_letter, short_letter};

use can_levels::{Level, Segment};
use can_node_rules::{FlagKind, Phase};
use sja_replay::{BitEvent, ShortBit};
use text_frames::Field;
use text_trace::{is_same, is_start};

/// The letter of a bit in which the bus had this level; it came after five equal levels or not.
#[tactic(auto, using(crate::proofs::NodeRows::Hands::letter_shown))]
pub(crate) fn letter(bus: Level, after_five: bool, bit: &BitEvent) -> &'static str
    ensures { result.now ≡ letter bus after_five bit.now }
{
    if !is_same(bit.seen, bus) {
        return "x";
    }
    if is_start(bit) {
        return "S";
    }
    let before = &bit.before;
    shown_letter(after_five, before.phase, before.segment, before.flag)
}

/// The same of a bit in short, with which no frame begins.
pub(crate) fn short_letter(bus: Level, after_five: bool, short: &ShortBit) -> &'static str
    ensures { result.now ≡ short_letter bus after_five short.now }
{
    if !is_same(short.seen, bus) {
        return "x";
    }
    shown_letter(after_five, short.phase, short.segment, short.flag)
}

/// The letter of a bit that isn't SOF, by what the node showed before it.
fn shown_letter(
    after_five: bool,
    phase: Phase,
    segment: Option<Segment>,
    flag: FlagKind,
) -> &'static str
    ensures { result.now ≡ shown_letter phase after_five segment flag }
{
    match phase {
        Phase::Reset => ".",
        Phase::Waiting => "w",
        Phase::Idle => "-",
        Phase::Frame => frame_letter(after_five, Field::of_bit(phase, segment)),
        Phase::Flag => flag_letter(flag),
        Phase::Delimiter => "d",
        Phase::Intermission => "i",
        Phase::Suspension => "p",
    }
}

/// The letter of a bit of this field.
fn frame_letter(after_five: bool, field: Field) -> &'static str
    ensures { result.now ≡ frame_letter after_five field }
{
    if field.is_stuffed() && after_five {
        "s"
    } else {
        field_letter(field)
    }
}

/// The letter of a field.
fn field_letter(field: Field) -> &'static str
    ensures { result.now ≡ field_letter field }
{
    match field {
        Field::Start => "S",
        Field::Identifier | Field::Extension => "I",
        Field::FirstRemote | Field::SecondRemote => "R",
        Field::Format => "X",
        Field::SecondReserved => "1",
        Field::FirstReserved => "0",
        Field::Length => "L",
        Field::Bytes => "D",
        Field::CrcSequence => "C",
        Field::CrcDelimiter | Field::AckDelimiter => "d",
        Field::AckSlot => "A",
        Field::Eof => "E",
        Field::Intermission => "i",
    }
}

/// The letter of a flag.
fn flag_letter(flag: FlagKind) -> &'static str
    ensures { result.now ≡ flag_letter flag }
{
    match flag {
        FlagKind::ActiveError => "F",
        FlagKind::PassiveError => "P",
        FlagKind::Overload => "O",
    }
}
