//! Whole runs with each driver in a thread of its own.

ghost use Rattle.std.specs.Prelude.{◌≡◌, ◌≢◌, ◌≤◌, [], length, map, vec_len, vec_capacity, Err, IfOk, IfErr};
ghost use Rattle.sja_plan.specs.Plan.{PlanValue};
ghost use Rattle.sja_promises.specs.Headline.{AreAccounts};
ghost use Rattle.sja_log.specs.declared.run_fault.RunFault.TheVariants.{GateCount};
ghost use Rattle.sja_thread_promises.specs.Asking.{AtNode, IsLet};
ghost use Rattle.sja_thread_promises.specs.Stopping.{IsFaultOf};
ghost use Rattle.sja_thread_promises.specs.Threads.{AreLetBy, IsThreadedRun};
ghost use Rattle.sja_threads.specs.Inside.JoinedRun.{IsEnding};
ghost use Rattle.sja_threads.specs.Inside.Making.{AreListed, AreRunParts};
ghost use Rattle.sja_threads.specs.Inside.Boards.{NoneTold};
ghost use Rattle.sja_threads.specs.Inside.Started.{AreOrdered};
ghost use Rattle.sja_threads.specs.Inside.Promised.{StopsFor};
ghost use Rattle.sja_threads.specs.Inside.EndsInOrder.{IsEndingInOrder};

use super::bus_thread::BusThread;
use super::gate::Gate;
use super::handover::Handover;
use super::joined_run::{JoinedRun, join_all};
use super::lobby::Lobby;
use super::locked_port::LockedPort;
use super::order::Order;
use super::ordered_ports::OrderedPorts;
use super::port_lists::PortLists;
use super::run_end::{end_run, stopped};
use super::run_parts::RunParts;
use super::thread_promise::Child;
use super::thread_start::start_all;
use super::turn_board::TurnBoard;
use super::turns_of_node::TurnsOfNode;
use sja_bus::BusFault;
use sja_log::{RunFault, RunLog};
use sja_plan::Plan;
use sja_rings::NodeDriver;
use std::alloc::Global;
use std::marker::Brand;
use std::snapshot::Snapshot;
use std::sync::{Mutex, Wait};
use std::thread;
use std::thread::{Scope, Threads};

/// Runs a plan with each driver in a thread of its own and the bus in the caller's, and gives the log of the run. Each
/// driver follows its script as its gate lets it ([`work`](crate::work)); the plan's turns are left out of account. The
/// plan's version says what a step is, and the log has the plan's steps as done in every version.
///
/// Each activation has a link of its own, and each port stands behind a lock; beside these the threads share how long
/// they have waited. A driver that waits sleeps between its tries, for a millisecond at most. Before
/// each bit the bus takes what the drivers gave. No bit is run before the first start of each driver was taken or the
/// driver had ended or waited for a later bit, and none where every controller is at rest and no step of the plan waits
/// for a later bit. Where a bit is due and none is left, the ports are closed, and taking goes on. When all drivers
/// have ended and are joined, the bus takes the rest and runs on until no bit is due or the bits are spent.
///
/// What each driver released in an activation, followed by what it left unread, is, in order and each once, the frames
/// its controller validly received and its filter passed, less those marked overrun; and a frame is marked overrun
/// exactly where it is longer than 64 less the bytes stored and not yet collected back. What each node saw in each bit
/// is what all drove together, or the other level where the plan's faults strike it. What the link of each activation
/// carried came by events of one link, each allowed when it came, in the order in which the journal has the bus's.
/// Some order of what the bus told each port and of its driver's acts there leads from power-on to the registers that
/// each act found; what was told is by the node's journal. An abort is applied in a bit only where it stood as the bus
/// told the port how many bits had run, just before. A gate is asked with the step's number and its tries from 1: it
/// let each step go that was done, and where not all were it quit, asked about the next one. No clause says that a
/// thread is served, or that the call returns.
///
/// Errors: [`RunFault::GateCount`] exactly where there isn't one gate for each node; [`RunFault::Memory`] where memory
/// was refused; [`RunFault::Thread`] where a thread can't be started; [`RunFault::Bus`] where the bus doesn't go on for
/// another cause than spent bits, as the journals show it and what the drivers gave on the links of this run;
/// [`RunFault::Unsettled`] where a link gave no account at its end, or items were left on it that the bus didn't take.
pub fn run_threads<G: Gate, R: Threads + Wait + Sync>(
    rt: &R,
    alloc: Global,
    plan: &Plan,
    gates: Vec<G>,
) -> Result<RunLog, RunFault>
    ensures run { IfOk result (λ log. IsThreadedRun plan.now log G.QUITS) }
    ensures headline { IfOk result (λ log. AreAccounts log) }
    ensures let_by { IfOk result (AreLetBy G.QUITS G.answered gates.items plan.now) }
    ensures gates { (vec_len gates ≢ length plan.now.nodes) → result ≡ Err GateCount }
    ensures only { result ≡ Err GateCount → vec_len gates ≢ length plan.now.nodes }
    ensures fault { (vec_len gates ≡ length plan.now.nodes) → IfErr result (IsFaultOf plan.now) }
{
    if gates.len() != plan.nodes() {
        return Err(RunFault::GateCount);
    }
    let asked = Snapshot::of(&gates);
    let (parts, lists) = RunParts::new(alloc, plan, gates)?;
    run_ordered::<Brand, G, R>(rt, alloc, plan, parts, lists, asked)
}

/// The run that begins with these, and asks these gates.
///
/// Errors: as [`run_threads`].
fn run_ordered<N: Order + Send + Sync, G: Gate, R: Threads + Wait + Sync>(
    rt: &R,
    alloc: Global,
    plan: &Plan,
    parts: RunParts<G>,
    lists: Vec<PortLists>,
    asked: Snapshot<Vec<G>>,
) -> Result<RunLog, RunFault>
    requires parts { AreRunParts plan.now parts }
    requires asked { map (λ s. s.gate) parts.starts.items ≡ asked.value.items }
    requires many { length lists.items ≡ length plan.now.nodes }
    requires listed { AreListed (length plan.now.nodes) parts.starts.items lists.items }
    requires version { N.version ≡ plan.now.version }
    requires turns { map (λ l. l.turns.name) lists.items ≡ N.turns }
    requires acts { map (λ l. l.acts.name) lists.items ≡ N.acts }
    ensures run { IfOk result (λ log. IsThreadedRun plan.now log G.QUITS) }
    ensures let_by { IfOk result (AreLetBy G.QUITS G.answered asked.value.items plan.now) }
    ensures fault { IfErr result (IsFaultOf plan.now) }
{
    let lobby = Mutex::new(Lobby::new(plan.nodes()));
    let OrderedPorts { ports, told } = OrderedPorts::<N>::new(alloc, plan, lists)?;
    let (joined, told) = run_drivers::<N, G, R>(
        rt,
        alloc,
        plan,
        parts,
        told,
        ports.as_slice(),
        &lobby,
    )?;
    let board = TurnBoard {
        rt,
        ports: ports.as_slice(),
        told,
    };
    end_run::<N, G, R>(alloc, plan, joined, board, asked)
}

/// Each driver in a thread of its own and the bus in this one, until all drivers have ended and are joined; and the
/// turns that were told by then. Where the run stops before that, the ports are closed, so that the drivers end.
///
/// Error: [`RunFault::Thread`] where a thread can't be started, and [`RunFault::Bus`] where the bus doesn't go on.
fn run_drivers<N: Order + Send + Sync, G: Gate, R: Threads + Wait + Sync>(
    rt: &R,
    alloc: Global,
    plan: &Plan,
    parts: RunParts<G>,
    told: Vec<TurnsOfNode<N>>,
    ports: &[Mutex<LockedPort<N>>],
    lobby: &Mutex<Lobby>,
) -> Result<(JoinedRun, Vec<TurnsOfNode<N>>), RunFault>
    requires parts { AreRunParts plan.now parts }
    requires order { AreOrdered N.version N.acts plan.now.version parts.starts.items }
    requires told { (length told.items ≡ length plan.now.nodes) × NoneTold told.items }
    requires ports { (length ports.now ≡ length plan.now.nodes) × (length plan.now.nodes ≤ 8) }
    ensures ending { IfOk result (λ r. IsEnding (AtNode (IsLet G.QUITS G.answered)
        (map (λ s. s.gate) parts.starts.items)) plan.now r.0) }
    ensures order { IfOk result (λ r. IsEndingInOrder N.acts plan.now r.0 r.1.items) }
    ensures fault { IfErr result (IsFaultOf plan.now) }
{
    thread::scope(
        thread::scope_env(),
        rt,
        move |scope| -> Result<(JoinedRun, Vec<TurnsOfNode<N>>), RunFault>
            requires parts { AreRunParts plan.now parts }
            requires order { AreOrdered N.version N.acts plan.now.version parts.starts.items }
            requires told { (length told.items ≡ length plan.now.nodes) × NoneTold told.items }
            requires ports { (length ports.now ≡ length plan.now.nodes) × (length plan.now.nodes ≤ 8) }
            ensures ending { IfOk result (λ r. IsEnding (AtNode (IsLet G.QUITS G.answered)
                (map (λ s. s.gate) parts.starts.items)) plan.entry.now r.0) }
            ensures order { IfOk result (λ r. IsEndingInOrder N.acts plan.entry.now r.0 r.1.items) }
            ensures fault { IfErr result (IsFaultOf plan.entry.now) }
        {
            let joined = run_in(scope, rt, alloc, plan, parts, told, ports, lobby);
            if joined.is_err() {
                lobby.lock(rt).stop();
            }
            joined
        },
    )
}

/// Starts the threads of all drivers, runs the bus beside them until they have ended, and joins them.
///
/// Error: [`RunFault::Thread`] where a thread can't be started; those that were started run on. Others as of
/// [`stop_run`].
fn run_in<'s, E, N: Order + Send + Sync + 's, G: Gate + 's, R: Threads + Wait + Sync>(
    scope: &Scope<'s, E>,
    rt: &'s R,
    alloc: Global,
    plan: &'s Plan,
    parts: RunParts<G>,
    told: Vec<TurnsOfNode<N>>,
    ports: &'s [Mutex<LockedPort<N>>],
    lobby: &'s Mutex<Lobby>,
) -> Result<(JoinedRun, Vec<TurnsOfNode<N>>), RunFault>
    requires parts { AreRunParts plan.now parts }
    requires order { AreOrdered N.version N.acts plan.now.version parts.starts.items }
    requires told { (length told.items ≡ length plan.now.nodes) × NoneTold told.items }
    requires ports { (length ports.now ≡ length plan.now.nodes) × (length plan.now.nodes ≤ 8) }
    ensures ending { IfOk result (λ r. IsEnding (AtNode (IsLet G.QUITS G.answered)
        (map (λ s. s.gate) parts.starts.items)) plan.now r.0) }
    ensures order { IfOk result (λ r. IsEndingInOrder N.acts plan.now r.0 r.1.items) }
    ensures fault { IfErr result (IsFaultOf plan.now) }
{
    let RunParts {
        mut bus,
        starts,
        children,
        workeds,
    } = parts;
    let mut board = TurnBoard { rt, ports, told };
    let Ok(children) = start_all(scope, rt, plan, starts, ports, lobby, children) else {
        board.close_all();
        return Err(RunFault::Thread);
    };
    match bus.rounds_beside_drivers(plan, &mut board, lobby) {
        Ok(()) => {
            let workeds = join_all(rt, children, workeds);
            let TurnBoard { told, .. } = board;
            Ok((JoinedRun { bus, workeds }, told))
        }
        Err(stop) => Err(stop_run(alloc, bus, board, lobby, children, workeds, stop)),
    }
}

/// Why a run has no log whose bus stopped with this fault beside its drivers' threads. The ports are closed, the
/// drivers are told that the bus makes no more rounds, and are joined.
fn stop_run<N: Order, G: Gate, R: Threads + Wait>(
    alloc: Global,
    bus: BusThread,
    board: TurnBoard<N, R>,
    lobby: &Mutex<Lobby>,
    children: Vec<Child<G>>,
    workeds: Vec<Handover<NodeDriver>>,
    stop: BusFault,
) -> RunFault
    requires room { vec_len children ≤ vec_capacity workeds }
    requires none { workeds.items ≡ [] }
    requires stops { (plan : PlanValue) × StopsFor (IsLet G.QUITS G.answered) plan bus.links.items
        (map (λ child. child.promise) children.items) stop }
    ensures { (plan : PlanValue) → StopsFor (IsLet G.QUITS G.answered) plan bus.links.items
        (map (λ child. child.promise) children.items) stop → IsFaultOf plan result }
{
    let mut board = board;
    board.close_all();
    lobby.lock(board.rt).stop();
    let workeds = join_all(board.rt, children, workeds);
    stopped(alloc, bus, workeds, stop)
}
