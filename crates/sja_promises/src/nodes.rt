//! What became of each node, as the log of a run has it.

ghost use Rattle.std.specs.Prelude.{◌≡◌, ◌<◌, ℕ, length, IfOk, OnOk, Err, slice_index_or, vec_len};
ghost use Rattle.sja_link.specs.Deques.{left_on};
ghost use Rattle.sja_driver.specs.declared.logged_driver.LoggedDriver.{LoggedDriver as Logged};
ghost use Rattle.sja_driver.specs.LoggedDrivers.{log_of, IsLawful};
ghost use Rattle.sja_driver.specs.Logs.{KeepsLog};
ghost use Rattle.sja_promises.specs.Finishing.{IsNodeEnd, AreNodeEnds, KeepLogs};
ghost use Rattle.sja_promises.specs.LeftDown.{left_of};
ghost use Rattle.sja_log.specs.declared.no_log.NoLog.TheVariants.{Endless};

use super::activation_logs::activation_logs;
use super::done_steps::all_copied;
use super::left_down::LeftDown;
use sja_bus_rules::NodeLog;
use sja_driver::LoggedDriver;
use sja_log::{NoLog, NodeRun};
use std::alloc::Global;

/// What became of each node, by what the bus left of it, its driver, and what lay downward on its links at the end of
/// the run, of all that was put there (this project's own rule).
///
/// Errors: [`NoLog::Endless`] where the log of a driver was made for more than it keeps; [`NoLog::Memory`] where memory
/// was refused.
pub fn node_runs(
    alloc: Global,
    logs: Vec<NodeLog>,
    drivers: &[LoggedDriver],
    lists: &[LeftDown],
) -> Result<Vec<NodeRun>, NoLog>
    requires drivers { length drivers.now ≡ vec_len logs }
    requires lists { length lists.now ≡ vec_len logs }
    requires lawful { (k : ℕ) (d : Logged) → k < length drivers.now → IsLawful (slice_index_or drivers.now k d) }
    ensures runs { IfOk result (λ runs.
        AreNodeEnds logs.items drivers.now (λ k a. left_of lists.now k a) (length drivers.now) runs.items) }
    ensures kept { OnOk result (KeepLogs drivers.now) }
    ensures endless { result ≡ Err Endless → KeepLogs drivers.now → ⊥ }
{
    let mut runs = Vec::with_capacity(alloc, drivers.len())?;
    let mut node = 0;
    for log in logs {
        runs.push_reserved(node_run(alloc, log, &drivers[node], &lists[node])?);
        node += 1;
    }
    Ok(runs)
}

/// What became of a node, by what the bus left of it, its driver, and what lay on its links.
///
/// Errors: [`NoLog::Endless`] where the log of the driver was made for more than it keeps; [`NoLog::Memory`] where
/// memory was refused.
fn node_run(
    alloc: Global,
    log: NodeLog,
    driver: &LoggedDriver,
    left_down: &LeftDown,
) -> Result<NodeRun, NoLog>
    requires lawful { IsLawful driver.now }
    ensures node { IfOk result (IsNodeEnd log driver.now (λ a. left_on left_down.now a)) }
    ensures kept { OnOk result (KeepsLog (log_of driver.now)) }
    ensures endless { result ≡ Err Endless → KeepsLog (log_of driver.now) → ⊥ }
{
    let done = driver.log().done()?;
    let released = driver.log().released()?;
    let ledgers = driver.log().left()?;
    let done = all_copied(alloc, done)?;
    let activations = activation_logs(alloc, driver, released, ledgers, left_down)?;
    Ok(NodeRun::of(log.journal, log.txerr, log.rxerr, done, activations))
}
