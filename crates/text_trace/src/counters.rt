//! The error counters, and the states that they lead to.

ghost use Rattle.std.specs.Prelude.{◌≡◌, ◌++◌, true, string_bytes, OnOk};
ghost use Rattle.text_trace.specs.BitEvents.{warns, comes_to_warn, confinement_said, change_text, states_said};
ghost use Rattle.text_trace.specs.BitEvents.{have_same, counters_text, counters_said, counters_after, restart_said};
ghost use Rattle.text_trace.specs.Inside.Saying.{Tells};

use super::remarks::Remarks;
use can_node_rules::{Counters, State};
use sja_replay::BitEvent;
use std::alloc::AllocError;
use std::fmt::Write;

/// The error warning limit (SJA1000 data sheet, 6.4.10: 96 after reset).
const WARNING: u16 = 96;

/// Bus-off and the way back, error warning, error passive and error active.
pub(crate) fn put_states(remarks: &mut Remarks, bit: &BitEvent) -> Result<(), AllocError>
    ensures { OnOk result (Tells remarks.old remarks.new (states_said bit.now)) }
{
    if bit.events.went_off {
        return remarks.say("BUS-OFF");
    }
    if bit.events.recovered {
        return remarks.say("back from bus-off");
    }
    put_confinement(remarks, bit.before.counters, bit.after.counters)
}

/// Error warning, error passive and error active.
#[tactic(auto, using(crate::proofs::BitSaid::Sayings::tells_same))]
fn put_confinement(remarks: &mut Remarks, old: Counters, new: Counters) -> Result<(), AllocError>
    ensures { OnOk result (Tells remarks.old remarks.new (confinement_said old new)) }
{
    if are_same(old, new) {
        return Ok(());
    }
    remarks.say_if(comes_to_warn(old, new), "error warning")?;
    put_change(remarks, old.state(), new.state())?;
    Ok(())
}

/// Whether both counters and bus-off are as they were.
pub(crate) fn are_same(old: Counters, new: Counters) -> bool
    ensures { result ≡ true → new ≡ old }
{
    old.tec == new.tec && old.rec == new.rec && old.off == new.off
}

/// Whether the warning limit is reached, where it wasn't before.
fn comes_to_warn(old: Counters, new: Counters) -> bool
    ensures { result ≡ comes_to_warn old new }
{
    !warns(old) && warns(new)
}

/// Whether a counter is at the warning limit.
fn warns(counters: Counters) -> bool
    ensures { result ≡ warns counters }
{
    WARNING <= counters.tec || WARNING <= u16::from(counters.rec)
}

/// Error passive and error active.
#[tactic(auto, using(crate::proofs::BitSaid::Sayings::tells_none))]
fn put_change(remarks: &mut Remarks, before: State, after: State) -> Result<(), AllocError>
    ensures { OnOk result (Tells remarks.old remarks.new (change_text before after)) }
{
    match (before, after) {
        (State::Active, State::Passive) => remarks.say("error passive"),
        (State::Passive, State::Active) => remarks.say("error active"),
        _ => Ok(()),
    }
}

/// TEC and REC after the bit, where one of them changed.
pub(crate) fn put_counters(remarks: &mut Remarks, bit: &BitEvent) -> Result<(), AllocError>
    ensures { OnOk result (Tells remarks.old remarks.new (counters_said bit.now)) }
{
    let new = bit.after.counters;
    if have_same(bit.before.counters, new) {
        return Ok(());
    }
    remarks.begin()?;
    write!(remarks.text, "tec {} rec {}", new.tec, new.rec)?;
    Ok(())
}

/// Whether both counters are as they were.
pub fn have_same(old: Counters, new: Counters) -> bool
    ensures { result ≡ have_same old new }
{
    old.tec == new.tec && old.rec == new.rec
}

/// The error counters as a bit left them; both 0 where there is none.
pub(crate) fn counters_after(bit: &Option<BitEvent>) -> Counters
    ensures { result ≡ counters_after bit.now }
{
    match bit {
        Some(bit) => bit.after.counters,
        None => Counters {
            tec: 0,
            rec: 0,
            off: false,
        },
    }
}

/// TEC and REC before the bit, where a start changed one of them after the bits before it had left them so.
pub(crate) fn put_restart(
    remarks: &mut Remarks,
    left: Counters,
    bit: &BitEvent,
) -> Result<(), AllocError>
    ensures { OnOk result (Tells remarks.old remarks.new (restart_said left bit.now)) }
{
    let now = bit.before.counters;
    if have_same(left, now) {
        return Ok(());
    }
    remarks.begin()?;
    write!(remarks.text, "tec {} rec {}", now.tec, now.rec)?;
    Ok(())
}
