//! Why an error counter changed with a bit: the rules of fault confinement (Bosch CAN 2.0 part A section 7).

ghost use Rattle.std.specs.Prelude.{◌≡◌, ◌++◌, string_bytes, OnOk};
ghost use Rattle.text_trace.specs.Causes.{step_words, step_text, flag_rule, delimiter_rule, frame_rule, fault_rule};
ghost use Rattle.text_trace.specs.Causes.{dominance_rule, dominance_text, quiet_text, end_cause, cause_of, cause_text};
ghost use Rattle.text_trace.specs.Causes.{start_cause, bit_cause};
ghost use Rattle.text_trace.specs.Inside.Saying.{Tells};

use super::counters::have_same;
use super::names::{cause_name, flag_name};
use super::remarks::Remarks;
use can_node_rules::{Counters, FlagKind, Outcome, Phase};
use sja_replay::BitEvent;
use std::alloc::AllocError;
use std::fmt::Write;

/// Of a change that a start made, in version 3.
pub(crate) fn put_start_cause(
    remarks: &mut Remarks,
    by_bytes: bool,
    left: Counters,
    bit: &BitEvent,
) -> Result<(), AllocError>
    ensures { OnOk result (Tells remarks.old remarks.new (start_cause by_bytes left bit.now)) }
{
    let changed = !have_same(left, bit.before.counters);
    remarks.say_if(by_bytes && changed, "set by its start")
}

/// Of a change with the bit, in version 3.
pub(crate) fn put_bit_cause(
    remarks: &mut Remarks,
    by_bytes: bool,
    bit: &BitEvent,
) -> Result<(), AllocError>
    ensures { OnOk result (Tells remarks.old remarks.new (bit_cause by_bytes bit.now)) }
{
    let changed = !have_same(bit.before.counters, bit.after.counters);
    if !(by_bytes && changed) {
        return Ok(());
    }
    remarks.begin()?;
    put_cause_text(&mut remarks.text, bit)?;
    Ok(())
}

/// The step and its cause.
#[tactic(auto, using(text_report::proofs::WrittenLines::Written::three_texts))]
fn put_cause_text(text: &mut String, bit: &BitEvent) -> Result<(), AllocError>
    ensures { OnOk result (string_bytes text.new ≡ string_bytes text.old ++ cause_text bit.now) }
{
    put_step(text, bit)?;
    text.push_str(", ")?;
    put_cause(text, bit)?;
    Ok(())
}

/// Which counter changed, and by how much.
fn put_step(text: &mut String, bit: &BitEvent) -> Result<(), AllocError>
    ensures { OnOk result (string_bytes text.new ≡ string_bytes text.old ++ step_text bit.now) }
{
    let old = bit.before.counters;
    let new = bit.after.counters;
    if bit.events.went_off {
        return text.push_str("tec +8");
    }
    if old.tec == new.tec {
        put_step_words(text, "rec", u16::from(old.rec), u16::from(new.rec))
    } else {
        put_step_words(text, "tec", old.tec, new.tec)
    }
}

/// A counter, and by how much it changed.
fn put_step_words(text: &mut String, name: &str, old: u16, new: u16) -> Result<(), AllocError>
    ensures { OnOk result (string_bytes text.new ≡ string_bytes text.old ++ (name.now ++ step_words old new)) }
{
    if old <= new {
        write!(text, "{name} +{}", new - old)
    } else {
        write!(text, "{name} -{}", old - new)
    }
}

/// The cause.
fn put_cause(text: &mut String, bit: &BitEvent) -> Result<(), AllocError>
    ensures { OnOk result (string_bytes text.new ≡ string_bytes text.old ++ cause_of bit.now.events.fault bit.now) }
{
    match bit.events.fault {
        Some((cause, _)) => {
            text.push_str(cause_name(cause))?;
            put_fault_rule(
                text,
                bit.before.phase,
                bit.before.flag,
                bit.events.receiving,
            )
        }
        None => put_end_cause(text, bit),
    }
}

/// Where an error was, and its rule.
fn put_fault_rule(
    text: &mut String,
    phase: Phase,
    flag: FlagKind,
    receiving: bool,
) -> Result<(), AllocError>
    ensures { OnOk result (string_bytes text.new ≡ string_bytes text.old ++ fault_rule phase flag receiving) }
{
    match phase {
        Phase::Flag => write!(text, " in its {}{}", flag_name(flag), flag_rule(receiving)),
        Phase::Delimiter => text.push_str(delimiter_rule(receiving)),
        _ => text.push_str(frame_rule(receiving)),
    }
}

/// The rule of an error in a flag.
fn flag_rule(receiving: bool) -> &'static str
    ensures { result.now ≡ flag_rule receiving }
{
    if receiving { " (rule 5)" } else { " (rule 4)" }
}

/// That of one in a delimiter.
fn delimiter_rule(receiving: bool) -> &'static str
    ensures { result.now ≡ delimiter_rule receiving }
{
    if receiving {
        " in the delimiter (rule 1)"
    } else {
        " in the delimiter (rule 3)"
    }
}

/// That of one in a frame.
fn frame_rule(receiving: bool) -> &'static str
    ensures { result.now ≡ frame_rule receiving }
{
    if receiving {
        " in a frame of another (rule 1)"
    } else {
        " in its own frame (rule 3)"
    }
}

/// A frame that was sent, or another cause that is no error.
fn put_end_cause(text: &mut String, bit: &BitEvent) -> Result<(), AllocError>
    ensures { OnOk result (string_bytes text.new ≡ string_bytes text.old ++ end_cause bit.now.events.ended bit.now) }
{
    match bit.events.ended {
        Some(Outcome::Sent) => text.push_str("its own frame was sent (rule 7)"),
        _ => put_quiet(
            text,
            bit.before.phase,
            bit.before.flag,
            bit.events.receiving,
        ),
    }
}

/// A cause that is no error, by where the node was.
fn put_quiet(
    text: &mut String,
    phase: Phase,
    flag: FlagKind,
    receiving: bool,
) -> Result<(), AllocError>
    ensures { OnOk result (string_bytes text.new ≡ string_bytes text.old ++ quiet_text phase flag receiving) }
{
    match phase {
        Phase::Flag => text.push_str(
            "dominant in its own passive error flag, not acknowledged before (rule 3)",
        ),
        Phase::Delimiter => put_dominance(text, flag, receiving),
        Phase::Waiting => text.push_str("eleven recessive bits in bus-off (rule 12)"),
        _ => text.push_str("a frame of another was right (rule 8)"),
    }
}

/// A dominant level after a flag.
fn put_dominance(text: &mut String, flag: FlagKind, receiving: bool) -> Result<(), AllocError>
    ensures { OnOk result (string_bytes text.new ≡ string_bytes text.old ++ dominance_text receiving flag) }
{
    write!(
        text,
        "dominant after its own {}{}",
        flag_name(flag),
        dominance_rule(receiving, flag)
    )
}

/// Its rule.
fn dominance_rule(receiving: bool, flag: FlagKind) -> &'static str
    ensures { result.now ≡ dominance_rule receiving flag }
{
    match (receiving, flag) {
        (true, FlagKind::ActiveError | FlagKind::PassiveError) => " (rule 2 or 6)",
        _ => " (rule 6)",
    }
}
