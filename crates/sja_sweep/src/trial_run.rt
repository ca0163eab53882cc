//! [`TrialRun`]: a run, and the errors in it.

ghost use Rattle.std.specs.Prelude.{◌≡◌, map, IfOk, IfErr};
ghost use Rattle.std.specs.List.{AllZip};
ghost use Rattle.sja_sweep.specs.Errors.{error_in, HasErrors, IsRan};
ghost use Rattle.sja_sweep.specs.Inside.Reaching.{trial_run_value, HaveErrors, IsTrialFault};

use super::sweep_fault::SweepFault;
use can_node_rules::Cause;
use sja_journal::Journal;
use sja_log::{NodeRun, RunLog};
use sja_plan::Plan;
use sja_replay::{BitEvent, Replay};
use sja_serial::run_serial;
use std::alloc::{AllocError, Global};

/// A run, and the errors in it.
#[derive(Drop)]
pub(crate) struct TrialRun {
    /// Its log.
    pub(crate) log: RunLog,
    /// Of each node the kind of error of each bit; none in most bits.
    pub(crate) errors: Vec<Vec<Option<Cause>>>,
}

/// Runs a plan in one thread, and goes over the journal of each node.
pub(crate) fn run_plan(alloc: Global, plan: &Plan) -> Result<TrialRun, SweepFault>
    ensures ok { IfOk result (λ r. IsRan plan.now (trial_run_value r)) }
    ensures err { IfErr result IsTrialFault }
{
    let log = run_serial(alloc, plan)?;
    let errors = errors_of_nodes(alloc, log.nodes())?;
    Ok(TrialRun { log, errors })
}

/// The errors of each node.
fn errors_of_nodes(alloc: Global, nodes: &[NodeRun]) -> Result<Vec<Vec<Option<Cause>>>, AllocError>
    ensures { IfOk result (λ all. HaveErrors nodes.now (map (λ v. v.items) all.items)) }
{
    let mut all = Vec::new(alloc);
    for node in nodes {
        all.push(errors_of(alloc, node.journal())?)?;
    }
    Ok(all)
}

/// The errors of a journal, bit by bit.
fn errors_of(alloc: Global, journal: &Journal) -> Result<Vec<Option<Cause>>, AllocError>
    ensures { IfOk result (λ errors. HasErrors journal.now.entries errors.items) }
{
    let mut errors = Vec::new(alloc);
    let mut replay = Replay::of(journal);
    while let Some(bit_event) = replay.next() {
        errors.push(error_in(&bit_event))?;
    }
    Ok(errors)
}

/// The kind of error that was found in a bit.
fn error_in(bit_event: &BitEvent) -> Option<Cause>
    ensures { result ≡ error_in bit_event.now }
{
    let (cause, _) = bit_event.events.fault?;
    Some(cause)
}
