//! The lines and rows of the strikes.

ghost use Rattle.std.specs.Prelude.{◌≡◌, ◌++◌, map, decimal, codes, string_bytes, OnOk};
ghost use Rattle.lemmas.specs.Gathering.{gathered};
ghost use Rattle.sja_sweep.specs.Spans.{spans};
ghost use Rattle.sja_sweep.specs.SweepText.{bits_words, second_words, struck_words, span_line, shown_line};
ghost use Rattle.sja_sweep.specs.SweepText.{target_row, second_row, row_beginning, row_line};
ghost use Rattle.sja_sweep.specs.SweepText.{sweep_rows};
ghost use Rattle.sja_sweep.specs.Inside.Reaching.{outcome_value, span_value};

use super::error_words::put_errors;
use super::kinds::Kinds;
use super::span::Span;
use super::target::Target;
use super::trial::Trial;
use super::trial_outcome::TrialOutcome;
use std::alloc::AllocError;
use std::fmt::Write;

/// A line for each run of successive bits with one outcome.
pub(crate) fn put_spans(
    text: &mut String,
    asked: Kinds,
    tolds: &[TrialOutcome],
) -> Result<(), AllocError>
    ensures { OnOk result (string_bytes text.new ≡ string_bytes text.old
        ++ gathered (shown_line asked) (spans (map outcome_value tolds.now))) }
{
    let Some((first, rest)) = tolds.split_first() else {
        return Ok(());
    };
    let mut open = Span::of(first);
    for told in rest {
        let next = Span::of(told);
        if open.goes_on(next) {
            open = open.joined(next);
        } else {
            put_shown(text, asked, open)?;
            open = next;
        }
    }
    put_shown(text, asked, open)
}

/// The line, unless lines of other kinds alone are asked for.
fn put_shown(text: &mut String, asked: Kinds, span: Span<'_>) -> Result<(), AllocError>
    ensures { OnOk result (string_bytes text.new ≡ string_bytes text.old
        ++ shown_line asked (span_value span.entry)) }
{
    if asked.shows(span.kinds) {
        put_span(text, span)
    } else {
        Ok(())
    }
}

/// The line of successive bits with one outcome.
fn put_span(text: &mut String, span: Span<'_>) -> Result<(), AllocError>
    ensures { OnOk result (string_bytes text.new ≡ string_bytes text.old ++ span_line (span_value span.entry)) }
{
    put_struck(text, span.first, span.last)?;
    put_errors(text, span.from, span.to)?;
    text.push_str(span.words)?;
    text.push('\n')?;
    Ok(())
}

/// The nodes and bits that are struck, from the first trial to the last one.
fn put_struck(text: &mut String, first: Trial, last: Trial) -> Result<(), AllocError>
    ensures { OnOk result (string_bytes text.new ≡ string_bytes text.old ++ struck_words first last) }
{
    let node = first.first.node;
    write!(text, "node {node} struck")?;
    put_bits(text, first.first.bit, last.first.bit)?;
    put_second(text, first.second, last.second)
}

/// The second node of a pair, and its bits.
fn put_second(
    text: &mut String,
    first: Option<Target>,
    last: Option<Target>,
) -> Result<(), AllocError>
    ensures { OnOk result (string_bytes text.new ≡ string_bytes text.old ++ second_words first last) }
{
    match (first, last) {
        (Some(first), Some(last)) => {
            let node = first.node;
            write!(text, ", node {node}")?;
            put_bits(text, first.bit, last.bit)
        }
        _ => Ok(()),
    }
}

/// The bits that are struck.
fn put_bits(text: &mut String, first: u32, last: u32) -> Result<(), AllocError>
    ensures { OnOk result (string_bytes text.new ≡ string_bytes text.old ++ bits_words first last) }
{
    if first == last {
        return write!(text, " at bit {first}");
    }
    write!(text, " at bits {first}-{last}")
}

/// A row for each run.
pub(crate) fn put_rows(text: &mut String, tolds: &[TrialOutcome]) -> Result<(), AllocError>
    ensures { OnOk result (string_bytes text.new ≡ string_bytes text.old ++ sweep_rows (map outcome_value tolds.now)) }
{
    for told in tolds {
        put_row(text, told)?;
    }
    Ok(())
}

/// The row of a run.
fn put_row(text: &mut String, told: &TrialOutcome) -> Result<(), AllocError>
    ensures { OnOk result (string_bytes text.new ≡ string_bytes text.old ++ row_line (outcome_value told.now)) }
{
    put_kind(text, told.trial, told.kinds.changed)?;
    put_errors(text, told.error, told.error)?;
    text.push_str(told.words.as_str())?;
    text.push('\n')?;
    Ok(())
}

/// What was tried, and whether the outcome is another one.
fn put_kind(text: &mut String, trial: Trial, changed: bool) -> Result<(), AllocError>
    ensures { OnOk result (string_bytes text.new ≡ string_bytes text.old ++ row_beginning trial changed) }
{
    put_target(text, trial.first)?;
    put_second_row(text, trial.second)?;
    text.push_str(if changed { "other" } else { "same" })
}

/// Of a pair the second node and its bit.
fn put_second_row(text: &mut String, second: Option<Target>) -> Result<(), AllocError>
    ensures { OnOk result (string_bytes text.new ≡ string_bytes text.old ++ second_row second) }
{
    match second {
        None => Ok(()),
        Some(target) => put_target(text, target),
    }
}

/// A node and a bit.
fn put_target(text: &mut String, target: Target) -> Result<(), AllocError>
    ensures { OnOk result (string_bytes text.new ≡ string_bytes text.old ++ target_row target) }
{
    let (node, bit) = (target.node, target.bit);
    write!(text, "{node} {bit} ")
}
