//! [`wave`]: the waveform of a run.

ghost use Rattle.std.specs.Prelude.{◌≡◌, ◌<◌, ◌++◌, List, string_bytes, IfOk, OnOk};
ghost use Rattle.lemmas.specs.Related.{EachRelated};
ghost use Rattle.text_wave.specs.Stories.{NodeStory};
ghost use Rattle.text_wave.specs.WaveText.{time_line, timed, IsWave};
ghost use Rattle.text_wave.specs.Inside.Changes.{all_changes};
ghost use Rattle.text_wave.specs.Inside.Probes.{IsAtBit, AreFirst, GoesOn, GoesFurther, HaveEnded, ShowsAll};

use super::changes::put_changes;
use super::declarations::put_declarations;
use super::probe::Probe;
use super::probes::{advance_all, finish_all, probes_of, rest_all, rest_for_all};
use super::values::put_values;
use can_frame::OutOfMemory;
use sja_log::RunLog;
use std::alloc::{AllocError, Global};
use std::fmt::Write;

/// The waveform of a run: the text that `specs/WaveText.antt` says of its signals.
///
/// Each node's journal is gone over once, all together, bit by bit, and past bits in which nothing changes at once: its
/// entries, and beside them what each bit brought by its replay. A journal that has fewer bits than were run, or from
/// some bit on none that can be told, keeps what its last bit left.
///
/// Error: [`OutOfMemory`] where memory was refused.
pub fn wave(alloc: Global, log: &RunLog) -> Result<String, OutOfMemory>
    ensures { IfOk result (λ text. IsWave log.now (string_bytes text)) }
{
    let mut text = String::new(alloc);
    put_declarations(&mut text, log.nodes())?;
    let mut probes = probes_of(alloc, log.nodes())?;
    put_all(alloc, &mut text, &mut probes, log)?;
    Ok(text)
}

/// The values of all signals at the first bit, and the changes of the others.
fn put_all(
    alloc: Global,
    text: &mut String,
    probes: &mut [Probe<'_>],
    log: &RunLog,
) -> Result<(), AllocError>
    requires { AreFirst log.now.nodes probes.old }
    ensures { OnOk result (ShowsAll log.now (string_bytes text.old) (string_bytes text.new)) }
{
    put_values(text, probes)?;
    put_bits(alloc, text, probes, log)?;
    finish_all(probes);
    Ok(())
}

/// The changes of each bit after the first one, and the end of the last bit.
fn put_bits(
    alloc: Global,
    text: &mut String,
    probes: &mut [Probe<'_>],
    log: &RunLog,
) -> Result<(), AllocError>
    ensures { (parts : List NodeStory) → EachRelated (IsAtBit 0) probes.old parts →
        OnOk result (HaveEnded log.now.bits parts probes.new (string_bytes text.old) (string_bytes text.new)) }
{
    if log.bits() == 0 {
        return Ok(());
    }
    let mut lines = String::new(alloc);
    let last = log.bits() - 1;
    let mut bit = 0;
    while bit < last {
        bit = put_more(text, &mut lines, probes, bit, last)?;
    }
    put_end(text, probes, log.bits())?;
    Ok(())
}

/// Goes on to the next bit, and writes what changed, or past more of them in which nothing changes. Answers which bit
/// it came to.
fn put_more(
    text: &mut String,
    lines: &mut String,
    probes: &mut [Probe<'_>],
    bit: u32,
    last: u32,
) -> Result<u32, AllocError>
    requires { bit < last }
    ensures { IfOk result (λ next.
        GoesFurther last bit next probes.old probes.new (string_bytes text.old) (string_bytes text.new)) }
{
    let count = rest_for_all(probes, last - bit);
    if count == 0 {
        put_next(text, lines, probes, bit + 1)?;
        return Ok(bit + 1);
    }
    rest_all(probes, count);
    Ok(bit + count)
}

/// Goes on to the next bit, which has this number, and writes what changed.
fn put_next(
    text: &mut String,
    lines: &mut String,
    probes: &mut [Probe<'_>],
    bit: u32,
) -> Result<(), AllocError>
    ensures probes { OnOk result (EachRelated GoesOn probes.old probes.new) }
    ensures text { OnOk result (string_bytes text.new ≡ string_bytes text.old
        ++ timed bit (all_changes probes.new)) }
{
    advance_all(probes);
    lines.clear();
    put_changes(lines, probes)?;
    put_timed(text, bit, lines)?;
    Ok(())
}

/// The end of the last bit, after so many bits, and what changed after it.
#[tactic(auto, using(text_report::proofs::WrittenLines::Written::two_texts))]
fn put_end(text: &mut String, probes: &mut [Probe<'_>], bits: u32) -> Result<(), AllocError>
    ensures probes { OnOk result (EachRelated GoesOn probes.old probes.new) }
    ensures text { OnOk result (string_bytes text.new ≡ string_bytes text.old
        ++ (time_line bits ++ all_changes probes.new)) }
{
    advance_all(probes);
    put_time(text, bits)?;
    put_changes(text, probes)?;
    Ok(())
}

/// Lines, with the time of a bit before them; nothing where there are none.
fn put_timed(text: &mut String, bit: u32, lines: &str) -> Result<(), AllocError>
    ensures { OnOk result (string_bytes text.new ≡ string_bytes text.old ++ timed bit lines.now) }
{
    if lines.is_empty() {
        return Ok(());
    }
    put_time(text, bit)?;
    text.push_str(lines)
}

/// The time at which a bit begins.
fn put_time(text: &mut String, bit: u32) -> Result<(), AllocError>
    ensures { OnOk result (string_bytes text.new ≡ string_bytes text.old ++ time_line bit) }
{
    writeln!(text, "#{}", 10 * u64::from(bit))
}
