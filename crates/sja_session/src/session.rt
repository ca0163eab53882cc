//! [`Session`]: a run in one thread, driven call by call.

use super::beginning::{check, run_for, strikes_for};
use super::lists::empty_lists;
use super::no_plan::NoPlan;
use super::plan_so_far::copied_strikes;
use super::session_fault::SessionFault;
use super::session_room::SessionRoom;
use can_frame::OutOfMemory;
use sja_journal::BoundedHistory;
use sja_plan::{FIRST_BY_BYTES, Plan, Turn, most_bits};
use sja_serial::SerialRun;
use sja_steps::{FaultScript, MOST_NODES, Step, Strike};
use std::alloc::Global;
use std::marker::Model;

/// How many bits a session without an end is made for: at 1 Mbit/s they take 146,000 years.
const ENDLESS_BITS: u64 = 1 << 62;

/// A run in one thread that its holder drives (this project's own rule).
///
/// Contracts see it as its run, the plan that it goes by, without steps and turns, the steps of each node that were
/// done, for how many of them and how many turns there is room, and the turns that were taken; and say at which steps
/// of the drivers it stands. By its invariant it always stands at some, so no call asks anything of its caller.
///
/// A session without an end ([`endless`](Session::endless)) goes by a plan of more bits than can be run. It forgets
/// what is oldest, so that its memory stays, and has neither plan nor log. Its nodes start as often as their drivers
/// like.
#[derive(Drop)]
pub struct Session {
    pub(crate) run: SerialRun,
    /// Version, nodes, and where it has an end bits and strikes.
    pub(crate) plan: Plan,
    pub(crate) bits: u64,
    /// The strikes of a session without an end.
    pub(crate) struck: BoundedHistory<Strike>,
    pub(crate) steps: Vec<BoundedHistory<Step>>,
    pub(crate) room: SessionRoom,
    pub(crate) turns: Vec<Turn>,
}

impl Model for Session {
    ghost use Rattle.std.specs.Prelude.{map, vec_capacity};
    ghost use Rattle.sja_session.specs.Sessions.{SessionValue, IsSession, plan_with, session_of};
    ghost use Rattle.sja_session.specs.Inside.Written.{GoesBy};

    ghost Value = { SessionValue };

    ghost view = { λ s. session_of s.room s.run (plan_with s.plan s.bits s.struck.items)
        (map (λ steps. steps.items) s.steps.items) s.turns.items };

    ghost invariant = { λ s. IsSession (session_of s.room s.run (plan_with s.plan s.bits s.struck.items)
        (map (λ steps. steps.items) s.steps.items) s.turns.items) (map (λ steps. steps.room) s.steps.items)
        (vec_capacity s.turns)
        × GoesBy s.plan s.bits s.struck };
}

impl Session {
    ghost use Rattle.std.specs.Prelude.{◌≡◌, ◌<◌, ◌≤◌, [], replicate, true, false, IfOk, IfErr, OnOk, length};
    ghost use Rattle.sja_bus_rules.specs.Buses.{new_bus};
    ghost use Rattle.sja_journal.specs.Sizes.{most_activations};
    ghost use Rattle.sja_driver.specs.StepRuns.{most_acts};
    ghost use Rattle.sja_plan.specs.Growing.{plan_of};
    ghost use Rattle.sja_plan.specs.Limits.{most_steps};
    ghost use Rattle.sja_plan.specs.Plan.{IsInLimits};
    ghost use Rattle.sja_session.specs.declared.no_plan.NoPlan.TheVariants.{Endless};
    ghost use Rattle.sja_session.specs.Beginning.{MayBegin, IsEndlessFault, IsNodeCount, IsRoom, IsSessionFault};
    ghost use Rattle.sja_session.specs.Beginning.{endless_bits, endless_room, fresh_bus, most_room};
    ghost use Rattle.sja_session.specs.Sessions.{HasEnd, IsAt, IsEndless, run_version, written};
    ghost use Rattle.sja_session.specs.Stepping.{steps_done_of};
    ghost use Rattle.sja_session.specs.Inside.Written.{IsBare, MayGoBy};

    /// A session to which nothing happened, as [`with_room`](Session::with_room) makes it, with room for as much as a
    /// plan of this version has at most: 1,000 steps of each node and 10,000 turns, or 65,535 steps and 200,000 turns
    /// in version 3. What that is in bytes says `docs/use/LIBRARY.md`.
    ///
    /// Errors: those of [`with_room`](Session::with_room), but for the two of the room.
    pub fn new(alloc: Global, version: u8, bits: u32, nodes: u8) -> Result<Session, SessionFault>
        ensures at { IfOk result (λ s. IsAt s (replicate nodes [])) }
        ensures bus { IfOk result (λ s. s.run.bus ≡ fresh_bus version bits nodes (most_steps version)) }
        ensures plan { IfOk result (λ s. written s ≡ plan_of version bits (replicate nodes []) [] []) }
        ensures room { IfOk result (λ s. s.room ≡ most_room version) }
        ensures limits { OnOk result (MayBegin version bits nodes) }
        ensures err { IfErr result (IsSessionFault version bits nodes (most_room version)) }
    {
        Session::with_room(alloc, version, bits, nodes, SessionRoom::most(version))
    }

    /// A session to which nothing happened: so many nodes, 1 to 8, by the rules of this version, 1 to 3, for at most so
    /// many bits, 1 to 200,000, or to 2,000,000 in version 3. All memory that steps and bits need is reserved here:
    /// places for so many steps of each node with their answers, for so many turns, and for the journals of as many
    /// bits and steps.
    ///
    /// Errors, the first that holds: [`SessionFault::Version`], [`SessionFault::Bits`], [`SessionFault::NodeCount`],
    /// [`SessionFault::StepRoom`] and [`SessionFault::TurnRoom`] where these aren't within the limits of a plan of this
    /// version; [`SessionFault::Memory`] where memory was refused.
    pub fn with_room(
        alloc: Global,
        version: u8,
        bits: u32,
        nodes: u8,
        room: SessionRoom,
    ) -> Result<Session, SessionFault>
        ensures at { IfOk result (λ s. IsAt s (replicate nodes [])) }
        ensures bus { IfOk result (λ s. s.run.bus ≡ fresh_bus version bits nodes room.steps) }
        ensures plan { IfOk result (λ s. written s ≡ plan_of version bits (replicate nodes []) [] []) }
        ensures room { IfOk result (λ s. s.room ≡ room) }
        ensures limits { OnOk result (MayBegin version bits nodes × IsRoom version room) }
        ensures err { IfErr result (IsSessionFault version bits nodes room) }
    {
        check(version, bits, nodes, room)?;
        let plan = Plan::blank(alloc, version, bits, nodes, 0)?;
        Ok(Session::over(alloc, plan, bits as u64, room)?)
    }

    /// A session without an end, of version 3, to which nothing happened: so many nodes, 1 to 8. Its memory is reserved
    /// here and stays: it forgets what is oldest. Each call is as in a session with an end, but that there are more
    /// bits, steps and starts than can be used up, that it takes any number of strikes and turns, and that it has
    /// neither plan nor log.
    ///
    /// Errors, the first that holds: [`SessionFault::NodeCount`] where these aren't within the limits;
    /// [`SessionFault::Memory`] where memory was refused.
    pub fn endless(alloc: Global, nodes: u8) -> Result<Session, SessionFault>
        ensures at { IfOk result (λ s. IsAt s (replicate nodes [])) }
        ensures bus { IfOk result (λ s. s.run.bus ≡ fresh_bus 4 endless_bits nodes endless_room.steps) }
        ensures plan { IfOk result (λ s. written s ≡ plan_of 3 endless_bits (replicate nodes []) [] []) }
        ensures room { IfOk result (λ s. s.room ≡ endless_room) }
        ensures limits { OnOk result (IsNodeCount nodes) }
        ensures err { IfErr result (IsEndlessFault nodes) }
    {
        if nodes < 1 || nodes > MOST_NODES {
            return Err(SessionFault::NodeCount);
        }
        let plan = Plan::blank(alloc, FIRST_BY_BYTES, 1, nodes, 0)?;
        Ok(Session::over(alloc, plan, ENDLESS_BITS, SessionRoom::endless())?)
    }

    /// A session that goes by this plan, for so many bits, to which nothing happened.
    ///
    /// Error: [`OutOfMemory`] where memory was refused.
    pub(crate) fn over(
        alloc: Global,
        plan: Plan,
        bits: u64,
        room: SessionRoom,
    ) -> Result<Session, OutOfMemory>
        requires bare { IsBare plan }
        requires may { MayGoBy plan bits room }
        ensures at { IfOk result (λ s. IsAt s (replicate (length plan.nodes) [])) }
        ensures bus { IfOk result (λ s. s.run.bus ≡ new_bus plan.strikes bits (length plan.nodes)
            (most_activations (run_version (record plan { bits = bits })))
            (replicate (length plan.nodes) (most_acts plan.version room.steps))) }
        ensures plan { IfOk result (λ s. written s ≡ record plan { bits = bits }) }
        ensures room { IfOk result (λ s. s.room ≡ room) }
    {
        plan.limits();
        let nodes = plan.nodes();
        let script = FaultScript::of(copied_strikes(alloc, plan.strikes())?);
        let rooms = Vec::from_elem(alloc, room.steps, nodes)?;
        let run = run_for(alloc, &plan, bits, rooms, script)?;
        let steps = empty_lists(alloc, nodes, room.steps)?;
        let turns = Vec::with_capacity(alloc, room.turns as usize + 1)?;
        let struck = BoundedHistory::new(alloc, strikes_for(&plan, bits))?;
        Ok(Session {
            run,
            plan,
            bits,
            struck,
            steps,
            room,
            turns,
        })
    }

    /// How many bits were run.
    pub fn now(&self) -> u64
        ensures { result ≡ self.now.run.bits }
    {
        self.run.bits()
    }

    /// For how many steps of each node and how many turns room was reserved.
    pub fn room(&self) -> SessionRoom
        ensures { result ≡ self.now.room }
    {
        self.room
    }

    /// By which version of the rules the session goes.
    pub fn version(&self) -> u8
        ensures { result ≡ self.now.plan.version }
    {
        self.plan.version()
    }

    /// How many nodes it has.
    pub fn nodes(&self) -> usize
        ensures value { result ≡ length self.now.plan.nodes }
        ensures few { result ≤ 8 }
    {
        self.plan.nodes()
    }

    /// How many bits the session has: 2^62 without an end.
    pub fn most_bits(&self) -> u64
        ensures { result ≡ self.now.plan.bits }
    {
        self.bits
    }

    /// Whether it is without an end.
    #[inline(always)]
    pub fn is_endless(&self) -> bool
        ensures yes { result ≡ true → IsEndless self.now }
        ensures no { result ≡ false → HasEnd self.now }
    {
        self.bits > u64::from(most_bits(self.plan.version()))
    }

    /// The strikes of its bits.
    ///
    /// Error: [`NoPlan::Endless`] where it is without an end: strikes that have passed are forgotten.
    pub fn strikes(&self) -> Result<&[Strike], NoPlan>
        ensures value { IfOk result (λ s. s.now ≡ self.now.plan.strikes) }
        ensures end { OnOk result (HasEnd self.now) }
        ensures err { IfErr result (λ e. (e ≡ Endless) × IsEndless self.now) }
    {
        if self.is_endless() {
            return Err(NoPlan::Endless);
        }
        Ok(self.plan.strikes())
    }

    /// Its bits, nodes and strikes are within the limits of a plan, where it has an end. It does nothing: a caller who
    /// needs a limit calls it for its contract.
    pub fn limits(&self)
        ensures { HasEnd self.now → IsInLimits self.now.plan }
    {
        self.plan.limits();
    }

    /// How many steps of a node are done.
    pub(crate) fn done(&self, node: usize) -> usize
        requires { node < length self.now.plan.nodes }
        ensures { result ≡ steps_done_of self.now node }
    {
        self.steps[node].len()
    }
}
