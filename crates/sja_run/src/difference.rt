//! What is said of a report that isn't the expected one.

ghost use Rattle.std.specs.Prelude.{◌≡◌, ◌==◌, ◌+◌, ◌++◌, ◌≤◌, IfOk, IfSome, OnOk, None, length, map, option_map};
ghost use Rattle.std.specs.Prelude.{◌<◌, [], slice_index_or, string_bytes, take, slice_get};
ghost use Rattle.std.specs.Str.{bytes_eq};
ghost use Rattle.sja_plan_text.specs.Texts.{spelled_step};
ghost use Rattle.sja_run.specs.Difference.{IsCompared, is_step, line_said, lines_in, place_of, said_at};
ghost use Rattle.sja_run.specs.Difference.{step_at, step_behind, step_said};

use super::report_place::ReportPlace;
use can_frame::OutOfMemory;
use sja_plan::{FIRST_BY_BYTES, Plan};
use sja_plan_text::named_text;
use sja_steps::{Step, step_text};
use std::alloc::{AllocError, Global};

/// What is said of this report of a run of the plan: nothing where it is the expected one, else its first line that is
/// another one.
///
/// Error: [`OutOfMemory`] where memory was refused.
pub(crate) fn difference(
    alloc: Global,
    plan: &Plan,
    report: &[u8],
    expected: &[u8],
) -> Result<Option<Vec<u8>>, OutOfMemory>
    ensures { IfOk result (λ said.
        IsCompared plan.now report.now expected.now (option_map (λ text. text.items) said)) }
{
    let printed = lines_of(alloc, report)?;
    let wanted = lines_of(alloc, expected)?;
    match first_other(printed.as_slice(), wanted.as_slice()) {
        Some(place) => {
            let said = said_at(alloc, plan, printed.as_slice(), wanted.as_slice(), place)?;
            Ok(Some(said))
        }
        None => Ok(None),
    }
}

/// The lines of a text.
///
/// Error: [`AllocError`] where memory was refused.
fn lines_of<'a>(alloc: Global, text: &'a [u8]) -> Result<Vec<&'a [u8]>, AllocError>
    ensures { IfOk result (λ lines. map (λ line. line.now) lines.items ≡ lines_in text.now) }
{
    text.split(|byte| *byte == 10).collect(alloc)
}

/// The number of the first line, counted from 0, that isn't the same in both.
fn first_other(printed: &[&[u8]], expected: &[&[u8]]) -> Option<usize>
    ensures same { result ≡ None
        → map (λ line. line.now) printed.now ≡ map (λ line. line.now) expected.now }
    ensures other { IfSome result (λ n.
        (take n (map (λ line. line.now) printed.now) ≡ take n (map (λ line. line.now) expected.now))
        × (¬ (slice_get (map (λ line. line.now) printed.now) n
        ≡ slice_get (map (λ line. line.now) expected.now) n))) }
    ensures within { IfSome result (λ n. n ≤ length printed.now) }
{
    let mut place = 0;
    while place < printed.len() && place < expected.len() {
        if !is_same(printed, expected, place) {
            return Some(place);
        }
        place += 1;
    }
    if printed.len() == expected.len() {
        None
    } else {
        Some(place)
    }
}

/// Whether both have the same line at this place.
fn is_same(printed: &[&[u8]], expected: &[&[u8]], place: usize) -> bool
    requires printed { place < length printed.now }
    requires expected { place < length expected.now }
    ensures { result ≡ bytes_eq (slice_index_or (map (λ line. line.now) printed.now) place [])
        (slice_index_or (map (λ line. line.now) expected.now) place []) }
{
    printed[place] == expected[place]
}

/// What is said of the line at this place.
///
/// Error: [`OutOfMemory`] where memory was refused.
fn said_at(
    alloc: Global,
    plan: &Plan,
    printed: &[&[u8]],
    expected: &[&[u8]],
    place: usize,
) -> Result<Vec<u8>, OutOfMemory>
    requires { place ≤ length printed.now }
    ensures { IfOk result (λ text. text.items ≡ said_at plan.now (map (λ line. line.now) printed.now)
        (map (λ line. line.now) expected.now) place) }
{
    let is = line_at(printed, place);
    let wanted = line_at(expected, place);
    let step = step_behind(alloc, plan, &printed[..place], is, wanted)?;
    let number = place + 1;
    let mut text = format!(in alloc; "line {number} isn't the expected one\n")?.into_bytes();
    put_line(&mut text, b"expected: ", wanted)?;
    put_line(&mut text, b"printed:  ", is)?;
    text.extend_from_slice(step.as_bytes())?;
    Ok(text)
}

/// The step of a line behind others, where what is printed or what is expected is that of a step; else no text.
///
/// Error: [`OutOfMemory`] where memory was refused.
fn step_behind(
    alloc: Global,
    plan: &Plan,
    before: &[&[u8]],
    printed: Option<&[u8]>,
    expected: Option<&[u8]>,
) -> Result<String, OutOfMemory>
    ensures { IfOk result (λ text. string_bytes text ≡ step_behind plan.now (map (λ line. line.now) before.now)
        (option_map (λ line. line.now) printed.entry) (option_map (λ line. line.now) expected.entry)) }
{
    if is_step(printed) || is_step(expected) {
        step_said(alloc, plan, place_of(before))
    } else {
        Ok(String::new(alloc))
    }
}

/// The line at a place; none behind the last one.
fn line_at<'a>(lines: &[&'a [u8]], place: usize) -> Option<&'a [u8]>
    ensures { option_map (λ line. line.now) result ≡ slice_get (map (λ line. line.now) lines.now) place }
{
    if place < lines.len() {
        Some(lines[place])
    } else {
        None
    }
}

/// Adds a line behind a word, or that there is none.
///
/// Error: [`OutOfMemory`] where memory was refused.
fn put_line(text: &mut Vec<u8>, word: &[u8], line: Option<&[u8]>) -> Result<(), OutOfMemory>
    ensures { OnOk result (text.new.items
        ≡ text.old.items ++ line_said word.now (option_map (λ line. line.now) line.entry)) }
{
    text.extend_from_slice(word)?;
    match line {
        Some(line) => {
            text.extend_from_slice(line)?;
            text.push(10)?;
        }
        None => text.extend_from_slice(b"no line\n")?,
    }
    Ok(())
}

/// Whether a line is that of a step.
fn is_step(line: Option<&[u8]>) -> bool
    ensures { result ≡ is_step (option_map (λ line. line.now) line.entry) }
{
    match line {
        Some(line) => line.starts_with(b"step "),
        None => false,
    }
}

/// Where a report is behind these lines.
fn place_of(lines: &[&[u8]]) -> ReportPlace
    ensures place { result ≡ place_of (map (λ line. line.now) lines.now) }
    ensures bound { result.nodes + result.lines ≤ length lines.now }
{
    let mut place = ReportPlace::start();
    for line in lines {
        place = place.behind(line);
    }
    place
}

/// The line of the step at this place, if one is there.
///
/// Error: [`OutOfMemory`] where memory was refused.
fn step_said(alloc: Global, plan: &Plan, place: ReportPlace) -> Result<String, OutOfMemory>
    requires { place.nodes + place.lines ≤ 18446744073709551614 }
    ensures { IfOk result (λ text. string_bytes text ≡ step_said plan.now place (step_at plan.now place)) }
{
    let Some(step) = step_at(plan, place) else {
        return Ok(String::new(alloc));
    };
    let words = words_of(alloc, plan, step)?;
    let node = place.nodes - 1;
    let number = place.lines + 1;
    Ok(format!(in alloc; "node {node} step {number}: {words}\n")?)
}

/// The text of a step, as the plan is written.
///
/// Error: [`OutOfMemory`] where memory was refused.
fn words_of(alloc: Global, plan: &Plan, step: &Step) -> Result<String, OutOfMemory>
    ensures { IfOk result (λ text. string_bytes text ≡ spelled_step (plan.now.version == 3) step.now) }
{
    if plan.version() == FIRST_BY_BYTES {
        named_text(alloc, step)
    } else {
        step_text(alloc, step)
    }
}

/// The step at this place, if one is there.
fn step_at<'a>(plan: &'a Plan, place: ReportPlace) -> Option<&'a Step>
    ensures { option_map (λ step. step.now) result ≡ step_at plan.now place }
{
    if place.nodes == 0 || place.nodes > plan.nodes() {
        return None;
    }
    plan.steps(place.nodes - 1).get(place.lines)
}
