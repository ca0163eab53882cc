//! The values at the first bit.

ghost use Rattle.std.specs.Prelude.{◌≡◌, ◌∷◌, [], ◌++◌, codes, decimal, string_bytes, OnOk};
ghost use Rattle.can_levels.specs.Fields.{is_recessive};
ghost use Rattle.text_report.specs.ReportLines.{numbered};
ghost use Rattle.text_wave.specs.Wires.{differ};
ghost use Rattle.text_wave.specs.WaveText.{digit_of, line, value_line, number_line};
ghost use Rattle.text_wave.specs.Inside.Changes.{level_values, number_values, node_values, all_values};

use super::gauges::Gauges;
use super::probe::Probe;
use super::probes::bus_now;
use super::signals::Signals;
use can_levels::Level;
use std::alloc::AllocError;
use std::fmt::Write;

/// The values of all signals.
pub(crate) fn put_values(text: &mut String, probes: &[Probe<'_>]) -> Result<(), AllocError>
    ensures { OnOk result (string_bytes text.new ≡ string_bytes text.old ++ all_values probes.now) }
{
    let bus = bus_now(probes);
    writeln!(text, "#0")?;
    writeln!(text, "$dumpvars")?;
    put_bus(text, bus)?;
    put_all_values(text, probes, bus)?;
    writeln!(text, "$end")?;
    Ok(())
}

/// Those of each node, where the bus has this level.
fn put_all_values(text: &mut String, probes: &[Probe<'_>], bus: bool) -> Result<(), AllocError>
    ensures { OnOk result (string_bytes text.new ≡ string_bytes text.old
        ++ numbered (node_values bus) 0 probes.now) }
{
    let mut number = 0usize;
    for probe in probes {
        put_node_values(text, number, probe, bus)?;
        number += 1;
    }
    Ok(())
}

/// The value of the bus.
pub(crate) fn put_bus(text: &mut String, value: bool) -> Result<(), AllocError>
    ensures { OnOk result (string_bytes text.new ≡ string_bytes text.old ++ value_line (codes "w") value) }
{
    writeln!(text, "{}w", digit_of(value))
}

/// The values of the signals of a node.
#[tactic(auto, using(text_report::proofs::WrittenLines::Written::two_texts))]
fn put_node_values(
    text: &mut String,
    number: usize,
    probe: &Probe<'_>,
    bus: bool,
) -> Result<(), AllocError>
    ensures { OnOk result (string_bytes text.new ≡ string_bytes text.old ++ node_values bus number probe.now) }
{
    let struck = is_struck(bus, probe.cursor.shows.seen);
    put_level_values(text, number, probe.cursor.shows)?;
    put_number_values(text, number, probe.meter.shows, struck)?;
    Ok(())
}

/// Of what its journal says.
fn put_level_values(text: &mut String, number: usize, shows: Signals) -> Result<(), AllocError>
    ensures { OnOk result (string_bytes text.new ≡ string_bytes text.old ++ level_values number shows) }
{
    put_value(text, "d", number, shows.driven.is_recessive())?;
    put_value(text, "s", number, shows.seen.is_recessive())?;
    put_value(text, "a", number, shows.active)?;
    put_value(text, "f", number, shows.off)?;
    put_value(text, "m", number, shows.stored)?;
    put_value(text, "o", number, shows.overrun)?;
    Ok(())
}

/// Of what its bits brought, and whether it is struck.
fn put_number_values(
    text: &mut String,
    number: usize,
    shows: Gauges,
    struck: bool,
) -> Result<(), AllocError>
    ensures { OnOk result (string_bytes text.new ≡ string_bytes text.old ++ number_values number shows struck) }
{
    put_number(text, "t", number, shows.tec)?;
    put_number(text, "r", number, shows.rec)?;
    put_value(text, "x", number, struck)?;
    put_number(text, "p", number, shows.phase)?;
    Ok(())
}

/// The value of a level of a node.
#[tactic(auto, using(text_report::proofs::WrittenLines::Written::two_texts))]
pub(crate) fn put_value(
    text: &mut String,
    letter: &str,
    number: usize,
    value: bool,
) -> Result<(), AllocError>
    ensures { OnOk result (string_bytes text.new ≡ string_bytes text.old
        ++ value_line (letter.now ++ decimal number) value) }
{
    text.push_str(digit_of(value))?;
    put_code(text, letter, number)?;
    Ok(())
}

/// The identifier code of a node's signal, at the end of a line.
#[tactic(auto, using(text_report::proofs::WrittenLines::Written::three_texts))]
fn put_code(text: &mut String, letter: &str, number: usize) -> Result<(), AllocError>
    ensures { OnOk result (string_bytes text.new ≡ string_bytes text.old ++ line (letter.now ++ decimal number)) }
{
    text.push_str(letter)?;
    put_node_number(text, number)?;
    text.push_str("\n")?;
    Ok(())
}

/// The number of a node.
#[tactic(auto, using(std::proofs::lemmas::Fmt::decimal_digit))]
fn put_node_number(text: &mut String, node: usize) -> Result<(), AllocError>
    ensures { OnOk result (string_bytes text.new ≡ string_bytes text.old ++ decimal node) }
{
    if node < 10 {
        return text.push(char::from(b'0' + node as u8));
    }
    write!(text, "{node}")
}

/// The value of a number of a node.
pub(crate) fn put_number(
    text: &mut String,
    letter: &str,
    number: usize,
    value: u16,
) -> Result<(), AllocError>
    ensures { OnOk result (string_bytes text.new ≡ string_bytes text.old
        ++ number_line (letter.now ++ decimal number) value) }
{
    writeln!(text, "r{value} {letter}{number}")
}

/// The digit of a value.
fn digit_of(value: bool) -> &'static str
    ensures { result.now ≡ digit_of value ∷ [] }
{
    if value { "1" } else { "0" }
}

/// Whether a node that sees this level is struck, on a bus that is recessive or not.
pub(crate) fn is_struck(bus: bool, seen: Level) -> bool
    ensures { result ≡ differ bus (is_recessive seen) }
{
    bus != seen.is_recessive()
}
