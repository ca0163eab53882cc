//! What changes from one bit to the next.

ghost use Rattle.std.specs.Prelude.{◌≡◌, ◌++◌, true, codes, decimal, string_bytes, OnOk};
ghost use Rattle.text_report.specs.ReportLines.{numbered};
ghost use Rattle.text_wave.specs.WaveText.{change, number_change};
ghost use Rattle.text_wave.specs.Inside.Changes.{level_changes, number_changes, node_changes, all_changes};
ghost use Rattle.text_wave.specs.Inside.Changes.{seen_changes, state_changes};

use super::gauges::Gauges;
use super::probe::Probe;
use super::probes::{bus_before, bus_now};
use super::signals::Signals;
use super::values::{is_struck, put_bus, put_number, put_value};
use std::alloc::AllocError;

/// The values of all signals that changed.
#[tactic(auto, using(text_report::proofs::WrittenLines::Written::two_texts))]
pub(crate) fn put_changes(text: &mut String, probes: &[Probe<'_>]) -> Result<(), AllocError>
    ensures { OnOk result (string_bytes text.new ≡ string_bytes text.old ++ all_changes probes.now) }
{
    let before = bus_before(probes);
    let now = bus_now(probes);
    put_bus_change(text, before, now)?;
    put_all_changes(text, probes, before, now)?;
    Ok(())
}

/// Those of each node, where the bus had and has these levels.
fn put_all_changes(
    text: &mut String,
    probes: &[Probe<'_>],
    before: bool,
    now: bool,
) -> Result<(), AllocError>
    ensures { OnOk result (string_bytes text.new ≡ string_bytes text.old
        ++ numbered (node_changes before now) 0 probes.now) }
{
    let mut number = 0usize;
    for probe in probes {
        put_node_changes(text, number, probe, before, now)?;
        number += 1;
    }
    Ok(())
}

/// The value of the bus, if it changed.
fn put_bus_change(text: &mut String, before: bool, now: bool) -> Result<(), AllocError>
    ensures { OnOk result (string_bytes text.new ≡ string_bytes text.old ++ change (codes "w") before now) }
{
    if before == now {
        return Ok(());
    }
    put_bus(text, now)
}

/// The values of the signals of a node that changed.
#[tactic(auto, using(text_report::proofs::WrittenLines::Written::two_texts))]
fn put_node_changes(
    text: &mut String,
    number: usize,
    probe: &Probe<'_>,
    before: bool,
    now: bool,
) -> Result<(), AllocError>
    ensures { OnOk result (string_bytes text.new ≡ string_bytes text.old
        ++ node_changes before now number probe.now) }
{
    let was_struck = is_struck(before, probe.cursor.showed.seen);
    let struck = is_struck(now, probe.cursor.shows.seen);
    put_level_changes(text, number, probe.cursor.showed, probe.cursor.shows)?;
    put_number_changes(
        text,
        number,
        probe.meter.showed,
        probe.meter.shows,
        was_struck,
        struck,
    )?;
    Ok(())
}

/// Of what its journal says.
#[tactic(auto, using(crate::proofs::BitByBit::Rested::level_texts))]
fn put_level_changes(
    text: &mut String,
    number: usize,
    old: Signals,
    new: Signals,
) -> Result<(), AllocError>
    ensures { OnOk result (string_bytes text.new ≡ string_bytes text.old ++ level_changes number old new) }
{
    put_seen_changes(text, number, old, new)?;
    put_state_changes(text, number, old, new)?;
    Ok(())
}

/// The levels that it drives and sees.
fn put_seen_changes(
    text: &mut String,
    number: usize,
    old: Signals,
    new: Signals,
) -> Result<(), AllocError>
    ensures { OnOk result (string_bytes text.new ≡ string_bytes text.old ++ seen_changes number old new) }
{
    put_change(
        text,
        "d",
        number,
        old.driven.is_recessive(),
        new.driven.is_recessive(),
    )?;
    put_change(
        text,
        "s",
        number,
        old.seen.is_recessive(),
        new.seen.is_recessive(),
    )?;
    Ok(())
}

/// Its activation and the verdicts. Mostly they stay.
fn put_state_changes(
    text: &mut String,
    number: usize,
    old: Signals,
    new: Signals,
) -> Result<(), AllocError>
    ensures { OnOk result (string_bytes text.new ≡ string_bytes text.old ++ state_changes number old new) }
{
    if have_same_states(old, new) {
        return Ok(());
    }
    put_change(text, "a", number, old.active, new.active)?;
    put_change(text, "f", number, old.off, new.off)?;
    put_change(text, "m", number, old.stored, new.stored)?;
    put_change(text, "o", number, old.overrun, new.overrun)?;
    Ok(())
}

/// Whether activation and verdicts are the same.
fn have_same_states(old: Signals, new: Signals) -> bool
    ensures { result ≡ true → ((old.active ≡ new.active) × (old.off ≡ new.off))
        × ((old.stored ≡ new.stored) × (old.overrun ≡ new.overrun)) }
{
    have_same_activity(old, new) && have_same_verdicts(old, new)
}

/// Whether activation and bus-off are.
fn have_same_activity(old: Signals, new: Signals) -> bool
    ensures { result ≡ true → (old.active ≡ new.active) × (old.off ≡ new.off) }
{
    old.active == new.active && old.off == new.off
}

/// Whether the verdicts are.
fn have_same_verdicts(old: Signals, new: Signals) -> bool
    ensures { result ≡ true → (old.stored ≡ new.stored) × (old.overrun ≡ new.overrun) }
{
    old.stored == new.stored && old.overrun == new.overrun
}

/// Of what its bits brought, and whether it was struck and is.
fn put_number_changes(
    text: &mut String,
    number: usize,
    old: Gauges,
    new: Gauges,
    was_struck: bool,
    is_struck: bool,
) -> Result<(), AllocError>
    ensures { OnOk result (string_bytes text.new ≡ string_bytes text.old
        ++ number_changes number old new was_struck is_struck) }
{
    if are_still(old, new, was_struck, is_struck) {
        return Ok(());
    }
    put_number_change(text, "t", number, old.tec, new.tec)?;
    put_number_change(text, "r", number, old.rec, new.rec)?;
    put_change(text, "x", number, was_struck, is_struck)?;
    put_number_change(text, "p", number, old.phase, new.phase)?;
    Ok(())
}

/// Whether neither numbers nor strikes changed.
fn are_still(old: Gauges, new: Gauges, was_struck: bool, is_struck: bool) -> bool
    ensures { result ≡ true → (old ≡ new) × (was_struck ≡ is_struck) }
{
    was_struck == is_struck && old.is(new)
}

/// The value of a level of a node, if it changed.
fn put_change(
    text: &mut String,
    letter: &str,
    number: usize,
    before: bool,
    now: bool,
) -> Result<(), AllocError>
    ensures { OnOk result (string_bytes text.new ≡ string_bytes text.old
        ++ change (letter.now ++ decimal number) before now) }
{
    if before == now {
        return Ok(());
    }
    put_value(text, letter, number, now)
}

/// The value of a number of a node, if it changed.
fn put_number_change(
    text: &mut String,
    letter: &str,
    number: usize,
    before: u16,
    now: u16,
) -> Result<(), AllocError>
    ensures { OnOk result (string_bytes text.new ≡ string_bytes text.old
        ++ number_change (letter.now ++ decimal number) before now) }
{
    if before == now {
        return Ok(());
    }
    put_number(text, letter, number, now)
}
