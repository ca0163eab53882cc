//! [`BusThread`]: the bus in the caller's thread, in rounds beside its drivers' threads and after them.

ghost use Rattle.std.specs.Prelude.{◌≡◌, ◌≤◌, ◌<◌, ◌⊎◌, true, false, length, None};
ghost use Rattle.sja_threads.specs.Inside.Boards.{AllBegun, turns_in};
ghost use Rattle.sja_thread_promises.specs.Needed.{most_awaited};

use super::last_awaited::{last_awaited, most_awaited};
use super::lobby::Lobby;
use super::order::Order;
use super::round::Round;
use super::turn_board::TurnBoard;
use super::waits::{SHORT, wait_a_while};
use sja_bus::{Bus, BusFault};
use sja_log::End;
use sja_plan::Plan;
use sja_rings::NodeBus;
use sja_steps::Step;
use std::sync::{Mutex, Wait};
use std::thread::Parker;

/// The bus of a run in threads (this project's own rule): itself, its ends of the links of all nodes, how many bits it
/// has run, and whether they are spent: a bit was due, and none was left.
#[derive(Drop)]
pub(crate) struct BusThread {
    pub(crate) bus: Bus,
    pub(crate) links: Vec<NodeBus>,
    pub(crate) run: u32,
    pub(crate) spent: bool,
}

impl BusThread {
    ghost use Rattle.std.specs.Prelude.{◌≡◌, ◌≢◌, ◌≤◌, ◌+◌, true, List, length, Ok, IfOk, IfErr, OnOk};
    ghost use Rattle.sja_journal.specs.Links.{AreEnds, HaveLinks};
    ghost use Rattle.sja_plan.specs.Plan.{PlanValue};
    ghost use Rattle.sja_rings.specs.NodeRings.{links_of_bus, node_of_bus, ShowsNothingUp};
    ghost use Rattle.sja_bus_rules.specs.Buses.{AllDry};
    ghost use Rattle.sja_threads.specs.declared.round.Round.TheVariants.{Ran, Rests, Spent};
    ghost use Rattle.sja_thread_promises.specs.Needed.{AllAtRest, last_awaited};
    ghost use Rattle.sja_thread_promises.specs.declared.port_update.PortUpdate.{PortUpdate};
    ghost use Rattle.sja_threads.specs.Inside.Boards.{AllBegun, AllEnded, AreClosed, AreTold, StayClosed, turns_in};
    ghost use Rattle.sja_thread_promises.specs.Ordering.{is_spent};
    ghost use Rattle.sja_threads.specs.Inside.Rounds.{EachHas, IsUnderWay, GoesOn, Stops, EndsAs};

    /// Takes what the drivers gave.
    ///
    /// Error: what the bus answers.
    fn gather(&mut self) -> Result<(), BusFault>
        requires ends { AreEnds node_of_bus (length self.old.bus.journals) self.old.links.items }
        requires links { HaveLinks links_of_bus self.old.bus.starts self.old.links.items }
        ensures on { OnOk result ((plan : PlanValue) → IsUnderWay plan self.old → GoesOn plan self.old self.new) }
        ensures run { self.new.run ≡ self.old.run }
        ensures spent { self.new.spent ≡ self.old.spent }
        ensures dry { OnOk result (AllDry ShowsNothingUp self.new.bus.journals self.new.links.items) }
        ensures told { OnOk result ((plan : PlanValue) (told : List (List PortUpdate)) →
            AreTold plan self.old.bus.journals told → AreTold plan self.new.bus.journals told) }
        ensures fault { IfErr result (λ f. (plan : PlanValue) → IsUnderWay plan self.old →
            Stops plan self.old self.new f) }
    {
        self.bus.gather(self.links.as_mut_slice())
    }

    /// Runs a bit where one is due: where some controller isn't at rest, or fewer have run than a step of the plan
    /// waits for. Where none is left the bits are spent.
    ///
    /// Error: what the bus answers for another cause than spent bits.
    fn bit_if_due<N: Order, R: Wait>(
        &mut self,
        plan: &Plan,
        board: &mut TurnBoard<N, R>,
        awaited: u32,
    ) -> Result<Round, BusFault>
        requires way { IsUnderWay plan.now self.old }
        requires dry { AllDry ShowsNothingUp self.old.bus.journals self.old.links.items }
        requires ports { length plan.now.nodes ≤ length board.old.told.items }
        requires begun { AllBegun plan.now self.old.bus.journals (turns_in board.old.told.items) }
        requires awaited { awaited ≡ last_awaited plan.now.nodes }
        ensures on { OnOk result (GoesOn plan.now self.old self.new) }
        ensures ports { length board.new.told.items ≡ length board.old.told.items }
        ensures told { OnOk result (AreTold plan.now self.old.bus.journals (turns_in board.old.told.items) →
            AreTold plan.now self.new.bus.journals (turns_in board.new.told.items)) }
        ensures ended { OnOk result (AllEnded (length plan.now.nodes) (turns_in board.old.told.items) →
            AllEnded (length plan.now.nodes) (turns_in board.new.told.items)) }
        ensures closed { OnOk result (StayClosed (length plan.now.nodes) (turns_in board.old.told.items)
            (turns_in board.new.told.items)) }
        ensures stays { (result ≢ Ok Spent) → self.new.spent ≡ self.old.spent }
        ensures ran { result ≡ Ok Ran → self.new.run ≡ self.old.run + 1 }
        ensures rests { result ≡ Ok Rests → (awaited ≤ self.new.run) × AllAtRest self.new.bus.journals }
        ensures spent { result ≡ Ok Spent → self.new.spent ≡ true }
        ensures all { result ≡ Ok Spent → EachHas plan.now.bits self.new.bus.journals }
        ensures fault { IfErr result (Stops plan.now self.old self.new) }
    {
        let rests = self.bus.at_rest();
        if !is_wanted(rests, self.run, awaited) {
            return Ok(Round::Rests);
        }
        if self.run >= plan.bits() {
            self.spent = true;
            return Ok(Round::Spent);
        }
        self.bus.bit(self.links.as_mut_slice(), board)?;
        self.run += 1;
        Ok(Round::Ran)
    }

    /// One round of the bus beside its drivers' threads: takes what the drivers gave, and then runs a bit where one
    /// is due. None is before of each node a start was taken, or its driver was found to have ended or to wait for a
    /// later bit.
    ///
    /// Error: what the bus answers for another cause than spent bits.
    fn round_beside<N: Order, R: Wait>(
        &mut self,
        plan: &Plan,
        board: &mut TurnBoard<N, R>,
        awaited: u32,
    ) -> Result<Round, BusFault>
        requires way { IsUnderWay plan.now self.old }
        requires ports { length plan.now.nodes ≤ length board.old.told.items }
        requires awaited { awaited ≡ last_awaited plan.now.nodes }
        ensures on { OnOk result (GoesOn plan.now self.old self.new) }
        ensures ports { length board.new.told.items ≡ length board.old.told.items }
        ensures told { OnOk result (AreTold plan.now self.old.bus.journals (turns_in board.old.told.items) →
            AreTold plan.now self.new.bus.journals (turns_in board.new.told.items)) }
        ensures closed { OnOk result (StayClosed (length plan.now.nodes) (turns_in board.old.told.items)
            (turns_in board.new.told.items)) }
        ensures stays { (result ≢ Ok Spent) → self.new.spent ≡ self.old.spent }
        ensures spent { result ≡ Ok Spent → self.new.spent ≡ true }
        ensures all { result ≡ Ok Spent → EachHas plan.now.bits self.new.bus.journals }
        ensures fault { IfErr result (Stops plan.now self.old self.new) }
    {
        self.gather()?;
        if !all_begun(plan, &self.bus, board) {
            return Ok(Round::Rests);
        }
        self.bit_if_due(plan, board, awaited)
    }

    /// The same, but that each port is told first how many bits have run, and last, where none is left, that. It says
    /// too whether all drivers had ended before.
    ///
    /// Error: what the bus answers for another cause than spent bits.
    fn told_round<N: Order, R: Wait>(
        &mut self,
        plan: &Plan,
        board: &mut TurnBoard<N, R>,
        awaited: u32,
    ) -> Result<(Round, bool), BusFault>
        requires way { IsUnderWay plan.now self.old }
        requires ports { length plan.now.nodes ≤ length board.old.told.items }
        requires awaited { awaited ≡ last_awaited plan.now.nodes }
        ensures on { OnOk result (GoesOn plan.now self.old self.new) }
        ensures ports { length board.new.told.items ≡ length board.old.told.items }
        ensures told { OnOk result (AreTold plan.now self.old.bus.journals (turns_in board.old.told.items) →
            AreTold plan.now self.new.bus.journals (turns_in board.new.told.items)) }
        ensures closed { OnOk result (AreClosed (length plan.now.nodes) self.old.spent (turns_in board.old.told.items)
            → AreClosed (length plan.now.nodes) self.new.spent (turns_in board.new.told.items)) }
        ensures ended { IfOk result (λ r. r.1 ≡ true →
            AllEnded (length plan.now.nodes) (turns_in board.new.told.items)) }
        ensures fault { IfErr result (Stops plan.now self.old self.new) }
    {
        // Asked for what holds of every bus.
        let _ = self.bus.bits_run();
        board.tell_bits(self.run);
        let round = self.round_beside(plan, board, awaited)?;
        match round {
            Round::Spent => {
                board.close_all();
                Ok((round, board.all_ended()))
            }
            _ => Ok((round, board.all_ended())),
        }
    }

    /// The rounds of the bus beside its drivers' threads: it takes what they give, and runs the bits that are due,
    /// until all drivers have ended. Which have is asked before each taking, so that what a driver gave before it ended
    /// is taken. Where a bit is due and none is left, the ports are closed, and taking goes on. In the lobby the bus
    /// says that nothing is due, once that was so for a hundred rounds.
    ///
    /// Error: what the bus answers for another cause than spent bits.
    pub(crate) fn rounds_beside_drivers<N: Order, R: Wait>(
        &mut self,
        plan: &Plan,
        board: &mut TurnBoard<N, R>,
        lobby: &Mutex<Lobby>,
    ) -> Result<(), BusFault>
        requires way { IsUnderWay plan.now self.old }
        requires ports { length plan.now.nodes ≤ length board.old.told.items }
        ensures on { OnOk result (GoesOn plan.now self.old self.new) }
        ensures ports { length board.new.told.items ≡ length board.old.told.items }
        ensures told { OnOk result (AreTold plan.now self.old.bus.journals (turns_in board.old.told.items) →
            AreTold plan.now self.new.bus.journals (turns_in board.new.told.items)) }
        ensures closed { OnOk result (AreClosed (length plan.now.nodes) self.old.spent (turns_in board.old.told.items)
            → AreClosed (length plan.now.nodes) self.new.spent (turns_in board.new.told.items)) }
        ensures ended { OnOk result (AllEnded (length plan.now.nodes) (turns_in board.new.told.items)) }
        ensures fault { IfErr result (Stops plan.now self.old self.new) }
    {
        let rt = board.rt;
        let parker = Parker::new();
        let awaited = last_awaited(plan);
        let mut idle = 1u32;
        for _ in rt.forever() {
            let (round, over) = self.told_round(plan, board, awaited)?;
            if round == Round::Ran {
                idle = 1;
            } else {
                if over {
                    return Ok(());
                }
                if idle > SHORT {
                    lobby.lock(rt).tell_round();
                }
                wait_a_while(rt, &parker, idle);
                idle = idle.saturating_add(1);
            }
        }
        unreachable!()
    }

    /// The rounds of the bus after its drivers' threads: it tells each port how many bits have run, takes what is left,
    /// and runs the bits that are due, until none is or the bits are spent. It says which of the two it was; where the
    /// bits are spent the ports are closed.
    ///
    /// Error: what the bus answers for another cause than spent bits.
    pub(crate) fn rounds_after_drivers<N: Order, R: Wait>(
        &mut self,
        plan: &Plan,
        board: &mut TurnBoard<N, R>,
    ) -> Result<End, BusFault>
        requires way { IsUnderWay plan.now self.old }
        requires ports { length plan.now.nodes ≤ length board.old.told.items }
        requires ended { AllEnded (length plan.now.nodes) (turns_in board.old.told.items) }
        ensures ends { IfOk result (EndsAs plan.now self.old self.new) }
        ensures closed { IfOk result (λ end.
            AreClosed (length plan.now.nodes) self.old.spent (turns_in board.old.told.items) →
            AreClosed (length plan.now.nodes) (is_spent end) (turns_in board.new.told.items)) }
        ensures ports { length board.new.told.items ≡ length board.old.told.items }
        ensures told { OnOk result (AreTold plan.now self.old.bus.journals (turns_in board.old.told.items) →
            AreTold plan.now self.new.bus.journals (turns_in board.new.told.items)) }
        ensures fault { IfErr result (Stops plan.now self.old self.new) }
    {
        let awaited = last_awaited(plan);
        for _ in self.run..=plan.bits() {
            // Asked for what holds of every bus.
            let _ = self.bus.bits_run();
            board.tell_bits(self.run);
            self.gather()?;
            match self.bit_if_due(plan, board, awaited)? {
                Round::Ran => {}
                Round::Rests if !self.spent => return Ok(End::Rest),
                Round::Rests => return Ok(End::Bits),
                Round::Spent => {
                    board.close_all();
                    return Ok(End::Bits);
                }
            }
        }
        unreachable!()
    }
}

/// Whether a bit is to be run after so many, where every controller rests or doesn't.
fn is_wanted(rests: bool, run: u32, awaited: u32) -> bool
    ensures yes { result ≡ true → (rests ≡ false) ⊎ (run < awaited) }
    ensures no { result ≡ false → (rests ≡ true) × (awaited ≤ run) }
{
    !rests || run < awaited
}

/// Whether of each node a start was taken, or its driver was found to have ended, or to wait for a later bit.
fn all_begun<N: Order, R: Wait>(plan: &Plan, bus: &Bus, board: &TurnBoard<N, R>) -> bool
    requires right { bus.now.fault ≡ None }
    requires nodes { length bus.now.journals ≡ length plan.now.nodes }
    requires ports { length plan.now.nodes ≤ length board.now.told.items }
    ensures { result ≡ true → AllBegun plan.now bus.now.journals (turns_in board.now.told.items) }
{
    let run = bus.bits_run();
    for node in 0..plan.nodes() {
        let told = &board.told[node];
        let waits = waits_for_later(plan.steps(node), run, told.awaited);
        if !has_begun(bus.started(node as u8), told.ended, waits) {
            return false;
        }
    }
    true
}

/// Whether the driver of this script, which was found to wait for so many bits, waits for more than have run.
fn waits_for_later(steps: &[Step], run: u64, awaited: u32) -> bool
    ensures { result ≡ true → run < most_awaited steps.now }
{
    run < (awaited as u64) && run < (most_awaited(steps) as u64)
}

/// Whether a node has begun whose first start was taken or wasn't, and whose driver was found to have ended, and to
/// wait for a later bit, or wasn't.
fn has_begun(started: bool, ended: bool, waits: bool) -> bool
    ensures { result ≡ true → (started ≡ true) ⊎ (ended ≡ true) ⊎ (waits ≡ true) }
{
    started || ended || waits
}
