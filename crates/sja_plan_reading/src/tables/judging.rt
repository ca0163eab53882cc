//! Whether definitions go together, by the rules of TOML.

ghost use Rattle.std.specs.Prelude.{◌≡◌, ◌+◌, ◌<◌, ◌≤◌, false, length, take, OnOk};
ghost use Rattle.std.specs.List.{slice_index_or};
ghost use Rattle.std.specs.List.Sorted.{IsSortedBy};
ghost use Rattle.toml.specs.Data.{same_key};
ghost use Rattle.sja_plan_reading.specs.Words.{Text};
ghost use Rattle.sja_plan_reading.specs.Inside.Items.{first_of, at_first};
ghost use Rattle.sja_plan_reading.specs.Inside.Names.{texts_of};
ghost use Rattle.sja_plan_reading.specs.Inside.Definitions.{item_of, items_of, AreGood, AreBad};
ghost use Rattle.sja_plan_reading.specs.Inside.Definitions.{Splits, SplitsBad, FirstsAre, is_before};
ghost use Rattle.sja_plan_reading.specs.Inside.Reading.{Refuses};

use super::definition::Definition;
use super::names::Names;
use super::refusal::Refusal;
use super::state::State;
use std::alloc::Global;

/// Whether definitions that begin in one table go together, in tables at most so deep. They aren't kept.
#[cycle(judging)]
pub(crate) fn judge(
    alloc: Global,
    names: &Names,
    definitions: &mut [Definition],
    depth: usize,
) -> Result<(), Refusal>
    ensures good { OnOk result (AreGood (items_of (texts_of names.now) definitions.old)) }
    ensures bad { Refuses result (AreBad (items_of (texts_of names.now) definitions.old)) }
    ensures len { length definitions.new ≡ length definitions.old }
{
    if definitions.len() < 2 {
        return Ok(());
    }
    if depth == 0 {
        return Err(Refusal::Open);
    }
    sort(alloc, names, definitions)?;
    let mut at = 0;
    'keys: while at < definitions.len() {
        let end = at + run_length(names, &definitions[at..]);
        judge_key(alloc, names, &mut definitions[at..end], depth - 1)?;
        at = end;
    }
    Ok(())
}

/// Whether definitions of one key go together. They aren't kept: those below the key take their places.
#[cycle(judging)]
fn judge_key(
    alloc: Global,
    names: &Names,
    run: &mut [Definition],
    depth: usize,
) -> Result<(), Refusal>
    ensures good { OnOk result (Splits (items_of (texts_of names.now) run.old)) }
    ensures bad { Refuses result (SplitsBad (items_of (texts_of names.now) run.old)) }
    ensures len { length run.new ≡ length run.old }
{
    let mut state = State::Absent;
    let mut kept = 0;
    'run: for at in 0..run.len() {
        let definition = run[at];
        let ends = definition.ends();
        let Some(next) = state.behind(definition.comes(), ends) else {
            return Err(Refusal::NoToml);
        };
        state = next;
        if !ends {
            run[kept] = definition.below()?;
            kept += 1;
        } else if definition.is_array() {
            judge(alloc, names, &mut run[..kept], depth)?;
            kept = 0;
        }
    }
    judge(alloc, names, &mut run[..kept], depth)
}

/// Sorts definitions by their first parts. Those of one keep their order.
fn sort(alloc: Global, names: &Names, definitions: &mut [Definition]) -> Result<(), Refusal>
    ensures len { length definitions.new ≡ length definitions.old }
    ensures sorted { OnOk result (IsSortedBy (is_before (texts_of names.now)) definitions.new) }
    ensures stable { (k : Text) → at_first k (items_of (texts_of names.now) definitions.new)
        ≡ at_first k (items_of (texts_of names.now) definitions.old) }
    ensures never { Refuses result ⊥ }
{
    definitions.sort_by(alloc, |one, other| {
        names.part(one.first()).cmp(names.part(other.first()))
    })?;
    Ok(())
}

/// How many of the first definitions begin with the same part.
fn run_length(names: &Names, definitions: &[Definition]) -> usize
    requires { 0 < length definitions.now }
    ensures some { 0 < result }
    ensures within { result ≤ length definitions.now }
    ensures same { (d : Definition)
        → FirstsAre (same_key (first_of (item_of (texts_of names.now) (slice_index_or definitions.now 0 d))))
        (items_of (texts_of names.now) (take result definitions.now)) }
    ensures next { (d : Definition) → result < length definitions.now
        → same_key (first_of (item_of (texts_of names.now) (slice_index_or definitions.now 0 d)))
        (first_of (item_of (texts_of names.now) (slice_index_or definitions.now result d))) ≡ false }
{
    let first = names.part(definitions[0].first());
    for length in 1..definitions.len() {
        if !is_same(first, names.part(definitions[length].first())) {
            return length;
        }
    }
    definitions.len()
}

/// Whether the parts are one.
fn is_same(one: &[u8], other: &[u8]) -> bool
    ensures { result ≡ same_key one.now other.now }
{
    one == other
}
