//! The end of a run whose drivers stood in threads, and its log.

ghost use Rattle.std.specs.Prelude.{◌≡◌, ◌⊎◌, ◌≤◌, List, length, IfOk, IfErr};
ghost use Rattle.sja_driver.specs.TypedActs.{TypedAct};
ghost use Rattle.sja_plan.specs.Plan.{PlanValue};
ghost use Rattle.sja_promises.specs.Runs.{IsRun};
ghost use Rattle.sja_log.specs.declared.run_fault.RunFault.TheVariants.{Memory, Bus, Unsettled};
ghost use Rattle.sja_thread_promises.specs.Asking.{AtNode, IsLet};
ghost use Rattle.sja_thread_promises.specs.Stopping.{IsFaultOf};
ghost use Rattle.sja_thread_promises.specs.Threads.{AreLetBy, IsThreadedRun};
ghost use Rattle.sja_threads.specs.Inside.EndsInOrder.{IsEndingInOrder};
ghost use Rattle.sja_threads.specs.Inside.Ended.{IsOver};
ghost use Rattle.sja_threads.specs.Inside.EndsJoined.{IsStopped};
ghost use Rattle.sja_threads.specs.Inside.JoinedRun.{IsEnding};
ghost use Rattle.sja_threads.specs.Inside.Settling.{IsSettledLog, SomeUnsettled, all_ends};

use super::bus_thread::BusThread;
use super::comparing::compare_all;
use super::drivers_and_ends::DriversAndEnds;
use super::gate::Gate;
use super::handover::Handover;
use super::joined_run::JoinedRun;
use super::left_on_links::{all_account, settle_all};
use super::order::Order;
use super::turn_board::TurnBoard;
use sja_bus::BusFault;
use sja_log::{End, NoLog, RunFault, RunLog};
use sja_plan::Plan;
use sja_promises::node_runs;
use sja_rings::NodeDriver;
use std::alloc::Global;
use std::snapshot::Snapshot;
use std::sync::Wait;

/// The end of a run whose threads are all joined: the bus takes what is left and runs on until every controller is at
/// rest or the bits are spent, and each link is settled. These gates were asked.
///
/// Error: [`RunFault::Bus`] where the bus doesn't go on, [`RunFault::Unsettled`] where a link can't be settled, and
/// [`RunFault::Memory`] where memory was refused.
pub(crate) fn end_run<N: Order, G: Gate, R: Wait>(
    alloc: Global,
    plan: &Plan,
    joined: JoinedRun,
    board: TurnBoard<N, R>,
    asked: Snapshot<Vec<G>>,
) -> Result<RunLog, RunFault>
    requires ending { IsEnding (AtNode (IsLet G.QUITS G.answered) asked.value.items) plan.now joined }
    requires order { IsEndingInOrder N.acts plan.now joined board.told.items }
    requires version { N.version ≡ plan.now.version }
    ensures run { IfOk result (λ log. IsThreadedRun plan.now log G.QUITS) }
    ensures let_by { IfOk result (AreLetBy G.QUITS G.answered asked.value.items plan.now) }
    ensures fault { IfErr result (IsFaultOf plan.now) }
{
    let JoinedRun {
        mut bus,
        mut workeds,
    } = joined;
    let mut board = board;
    match bus.rounds_after_drivers(plan, &mut board) {
        Ok(end) => {
            compare_all(&mut board, &mut workeds, plan.nodes() as u8);
            settled_log(alloc, plan, bus, workeds, end)
        }
        Err(stop) => Err(stopped(alloc, bus, workeds, stop)),
    }
}

/// Why a run has no log whose bus stopped with this fault, once all threads are joined: that, where each link gives an
/// account of what came there. `workeds` are what the drivers handed back, by node.
pub(crate) fn stopped(
    alloc: Global,
    bus: BusThread,
    workeds: Vec<Handover<NodeDriver>>,
    stop: BusFault,
) -> RunFault
    requires { (plan : PlanValue) × IsStopped plan bus.links.items workeds.items stop }
    ensures { (plan : PlanValue) → IsStopped plan bus.links.items workeds.items stop → IsFaultOf plan result }
{
    let Ok(apart) = DriversAndEnds::of(alloc, workeds) else {
        return RunFault::Memory;
    };
    if all_account(bus.links, apart.ends) {
        as_told(stop)
    } else {
        RunFault::Unsettled
    }
}

/// What is told of a fault of the bus: it.
fn as_told(stop: BusFault) -> RunFault
    ensures { result ≡ Bus stop }
{
    RunFault::Bus(stop)
}

/// The log of a run that is over, and ends so: of each node its journal, its error counters, the steps done, and of
/// each activation what was released, and what was left unread, by the driver and on the link. `bus` has its ends
/// of the links of all nodes, and `workeds` are what the drivers handed back, by node.
///
/// Error: [`RunFault::Unsettled`] where the bus didn't take all that was given on a link, or an end of one gave no
/// account; [`RunFault::Memory`] where memory was refused.
fn settled_log(
    alloc: Global,
    plan: &Plan,
    bus: BusThread,
    workeds: Vec<Handover<NodeDriver>>,
    end: End,
) -> Result<RunLog, RunFault>
    requires over { (acts : List (List TypedAct)) × IsOver plan.now bus.bus bus.links.items workeds.items acts }
    requires bits { bus.bus.run ≡ bus.run }
    ensures run { IfOk result (λ log. (acts : List (List TypedAct)) →
        IsOver plan.now bus.bus bus.links.items workeds.items acts → IsRun plan.now log acts) }
    ensures log { IfOk result (IsSettledLog bus.bus workeds.items end) }
    ensures fault { IfErr result (λ f. (f ≡ Memory) ⊎ ((f ≡ Unsettled)
        × SomeUnsettled bus.links.items (all_ends workeds.items))) }
{
    plan.limits();
    let BusThread {
        bus,
        links,
        run,
        ..
    } = bus;
    let DriversAndEnds { drivers, ends } = DriversAndEnds::of(alloc, workeds)?;
    let lists = settle_all(alloc, links, ends)?;
    let Ok(logs) = bus.finish() else {
        unreachable!()
    };
    match node_runs(alloc, logs, drivers.as_slice(), lists.as_slice()) {
        Ok(nodes) => Ok(RunLog::of(plan.version(), run, end, nodes)),
        Err(NoLog::Memory) => Err(RunFault::Memory),
        Err(NoLog::Endless) => unreachable!(),
    }
}
