//! [`TrialOutcome`]: what came of one trial.

ghost use Rattle.std.specs.Prelude.{◌≡◌, ◌++◌, Some, length, string_bytes, IfOk, OnOk};
ghost use Rattle.sja_sweep.specs.Changes.{all_items};
ghost use Rattle.sja_sweep.specs.Outcome.{is_any, items_words, outcome_words, outcome_of};
ghost use Rattle.sja_sweep.specs.Inside.Reaching.{trial_run_value, outcome_value};

use super::counters::put_counters;
use super::first_error::{FirstError, first_error};
use super::kinds::Kinds;
use super::nodes::put_all;
use super::trial::Trial;
use super::trial_run::TrialRun;
use sja_log::{NodeRun, RunLog};
use sja_plan::Plan;
use std::alloc::{AllocError, Global};

/// What came of one trial. It keeps words alone of the run.
#[derive(Drop)]
pub(crate) struct TrialOutcome {
    /// What was struck.
    pub(crate) trial: Trial,
    /// The first error that the run has and the one as planned hasn't.
    pub(crate) error: Option<FirstError>,
    /// What is otherwise, and the error counters.
    pub(crate) words: String,
    /// Of what kinds that is.
    pub(crate) kinds: Kinds,
}

/// What came of a trial of a plan, by the run without it and the run with it.
pub(crate) fn told_of(
    alloc: Global,
    plan: &Plan,
    without: &TrialRun,
    trial: Trial,
    now: &TrialRun,
) -> Result<TrialOutcome, AllocError>
    requires nodes { length without.now.log.nodes ≡ length now.now.log.nodes }
    requires errors { length without.now.errors.items ≡ length now.now.errors.items }
    ensures { IfOk result (λ told. outcome_value told
        ≡ outcome_of plan.now (trial_run_value without.now) trial (trial_run_value now.now)) }
{
    let mut items = String::new(alloc);
    put_all(alloc, &mut items, None, &without.log, &now.log)?;
    let plain = has_plain(alloc, plan, &without.log, &now.log)?;
    let kinds = Kinds::of(&without.log, &now.log, !items.as_str().is_empty(), plain);
    let mut words = String::new(alloc);
    put_words(&mut words, kinds, items.as_str(), now.log.nodes())?;
    Ok(TrialOutcome {
        trial,
        error: first_error(without.errors.as_slice(), now.errors.as_slice()),
        words,
        kinds,
    })
}

/// Whether anything is otherwise but what reads of ECC answer.
fn has_plain(alloc: Global, plan: &Plan, without: &RunLog, now: &RunLog) -> Result<bool, AllocError>
    requires { length without.now.nodes ≡ length now.now.nodes }
    ensures { IfOk result (λ plain. plain ≡ is_any (all_items (Some plan.now) without.now now.now)) }
{
    let mut items = String::new(alloc);
    put_all(alloc, &mut items, Some(plan), without, now)?;
    Ok(!items.as_str().is_empty())
}

/// What is otherwise than without the strike, or that nothing is; and the error counters.
fn put_words(
    text: &mut String,
    kinds: Kinds,
    items: &str,
    nodes: &[NodeRun],
) -> Result<(), AllocError>
    ensures { OnOk result (string_bytes text.new
        ≡ string_bytes text.old ++ outcome_words kinds items.now nodes.now) }
{
    text.push_str(items_words(kinds, items))?;
    put_counters(text, nodes)
}

/// The first of the two.
fn items_words<'a>(kinds: Kinds, items: &'a str) -> &'a str
    ensures { result.now ≡ items_words kinds items.now }
{
    if kinds.ecc {
        "; told by ECC"
    } else if items.is_empty() {
        "; as without it"
    } else {
        items
    }
}
