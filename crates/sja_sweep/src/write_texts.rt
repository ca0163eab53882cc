//! The texts of a sweep, by what came of each strike.

ghost use Rattle.std.specs.Prelude.{◌≡◌, ◌++◌, map, length, string_bytes, OnOk, IfOk};
ghost use Rattle.sja_sweep.specs.SweepText.{count_of, count_words, first_line, last_line, sweep_text, sweep_rows};
ghost use Rattle.sja_sweep.specs.Inside.Reaching.{outcome_value};

use super::kind::Kind;
use super::kinds::Kinds;
use super::planned_line::put_planned;
use super::spans::{put_rows, put_spans};
use super::sweep_texts::SweepTexts;
use super::trial_outcome::TrialOutcome;
use sja_log::RunLog;
use std::alloc::{AllocError, Global};
use std::fmt::Write;

/// The texts of a sweep.
pub(crate) fn write_texts(
    alloc: Global,
    asked: Kinds,
    planned: &RunLog,
    tolds: &[TrialOutcome],
) -> Result<SweepTexts, AllocError>
    ensures text { IfOk result (λ swept. string_bytes swept.text
        ≡ sweep_text asked planned.now (map outcome_value tolds.now)) }
    ensures rows { IfOk result (λ swept. string_bytes swept.rows ≡ sweep_rows (map outcome_value tolds.now)) }
{
    let mut text = String::new(alloc);
    put_first(&mut text, tolds)?;
    put_planned(&mut text, planned)?;
    put_spans(&mut text, asked, tolds)?;
    put_last(&mut text, tolds)?;
    let mut rows = String::new(alloc);
    put_rows(&mut rows, tolds)?;
    Ok(SweepTexts { text, rows })
}

/// How many outcomes of each kind there were.
fn put_first(text: &mut String, tolds: &[TrialOutcome]) -> Result<(), AllocError>
    ensures { OnOk result (string_bytes text.new ≡ string_bytes text.old ++ first_line (map outcome_value tolds.now)) }
{
    put_count(text, "outcomes: as without a strike ", Kind::Same, tolds)?;
    put_count(text, ", told by ECC ", Kind::Ecc, tolds)?;
    put_count(text, ", twice ", Kind::Twice, tolds)?;
    put_count(text, ", lost ", Kind::Lost, tolds)?;
    put_count(text, ", stuck ", Kind::Stuck, tolds)?;
    put_count(text, ", other ", Kind::Other, tolds)?;
    text.push('\n')?;
    Ok(())
}

/// A word, and how many outcomes are of a kind.
fn put_count(
    text: &mut String,
    word: &str,
    kind: Kind,
    tolds: &[TrialOutcome],
) -> Result<(), AllocError>
    ensures { OnOk result (string_bytes text.new ≡ string_bytes text.old
        ++ count_words word.now kind (map outcome_value tolds.now)) }
{
    let count = count_of(tolds, kind);
    write!(text, "{word}{count}")
}

/// How many runs there were, and how many with another outcome.
fn put_last(text: &mut String, tolds: &[TrialOutcome]) -> Result<(), AllocError>
    ensures { OnOk result (string_bytes text.new ≡ string_bytes text.old ++ last_line (map outcome_value tolds.now)) }
{
    let (runs, others) = (tolds.len(), count_of(tolds, Kind::Changed));
    writeln!(text, "runs {runs}, with another outcome {others}")
}

/// How many of the outcomes are of a kind.
fn count_of(tolds: &[TrialOutcome], kind: Kind) -> usize
    ensures { result ≡ count_of kind (map outcome_value tolds.now) }
{
    let mut count = 0usize;
    for told in tolds {
        if told.kinds.is(kind) {
            count += 1;
        }
    }
    count
}
