//! The shared bus.

ghost use Rattle.std.specs.Prelude.{◌≡◌, None};

use super::all_nodes::{bit_of_all, gather_all};
use super::board::Board;
use super::bus_node::BusNode;
use super::node_log::logs_of;
use super::struck_bits::StruckBits;
use can_frame::OutOfMemory;
use sja_bus_rules::NodeLog;
use sja_journal::{BusFault, Endless};
use sja_link::BusEnd;
use sja_steps::FaultScript;
use std::alloc::Global;
use std::marker::Model;

/// The shared bus of one to eight nodes (Bosch CAN 2.0 part A section 2; its links, journals and ports are this
/// project's own rule).
///
/// Contracts see it as its script, for how many activations of each node there are links, for how many steps of each
/// driver it has room, the bits that were run and those that are left, the fault that it answers always, the journals
/// of its nodes, and of which node something is untold to its port. All its memory is taken when it is made: no bit
/// takes any, and a strike more alone does. So in a bus for very many bits the journals forget their oldest entries.
#[derive(Debug, Drop)]
pub struct Bus {
    pub(crate) struck: StruckBits,
    /// For how many activations each node's end has links.
    starts: u64,
    /// For how many steps of each node's driver its journal has room.
    steps: Vec<u64>,
    pub(crate) run: u64,
    pub(crate) left: u64,
    pub(crate) fault: Option<BusFault>,
    pub(crate) bus_nodes: Vec<BusNode>,
    logs: Vec<NodeLog>,
}

impl Model for Bus {
    ghost use Rattle.std.specs.Prelude.{◌≡◌, [], vec_capacity};
    ghost use Rattle.sja_bus_rules.specs.Buses.{BusValue};

    ghost Value = { BusValue };

    ghost use Rattle.sja_bus.specs.Inside.Rows.{journals_of, untold_of};
    ghost use Rattle.sja_bus.specs.Inside.Whole.{IsWhole};

    ghost view = { λ b. record {
      script = b.struck.script;
      starts = b.starts;
      steps = b.steps.items;
      run = b.run;
      left = b.left;
      fault = b.fault;
      journals = journals_of b.bus_nodes.items;
      untold = untold_of b.bus_nodes.items;
    } };

    ghost invariant = { λ b. IsWhole b.struck b.starts b.steps.items b.run b.left b.fault b.bus_nodes.items
        (vec_capacity b.logs)
        × (b.logs.items ≡ []) };
}

impl Bus {
    ghost use Rattle.std.specs.Prelude.{◌≡◌, ◌+◌, ◌^◌, ◌<◌, ◌≤◌, ◌⊎◌, ◌≢◌, ℕ, None, Some, Err};
    ghost use Rattle.std.specs.List.{All};
    ghost use Rattle.std.specs.Prelude.{true, false, length, map, slice_index_or, OnOk, OnErr, IfOk, IfErr};
    ghost use Rattle.sja_journal.specs.declared.bus_fault.BusFault.{BusFault as Fault};
    ghost use Rattle.sja_journal.specs.declared.bus_fault.BusFault.TheVariants.{BitsSpent};
    ghost use Rattle.sja_journal.specs.Links.{AreEnds, HaveLinks};
    ghost use Rattle.sja_journal.specs.BitEntries.{MayHaveItems};
    ghost use Rattle.lemmas.specs.Related.{EachRelated};
    ghost use Rattle.sja_bus_rules.specs.declared.node_log.NodeLog.{NodeLog as Log};
    ghost use Rattle.sja_bus_rules.specs.Lawful.{IsBusRun, CountersAre};
    ghost use Rattle.sja_bus_rules.specs.Buses.{AreOnLinks, EachJournal, KeepsAll, AllDry};
    ghost use Rattle.sja_bus_rules.specs.Buses.{new_bus, EachUntold, IsStill};
    ghost use Rattle.sja_bus_rules.specs.Reasons.{IsTakenAndRefused, StopsBit};
    ghost use Rattle.sja_bus_rules.specs.WholeRecords.{KeepsRecord};
    ghost use Rattle.sja_bus.specs.TakingAll.{TakesAll};
    ghost use Rattle.sja_bus.specs.Moment.{moment, Keeps, OneBit};

    /// A bus for a run of so many bits, 1 to 2^62, whose ends each have links for so many activations. It has as many
    /// nodes, 1 to 8, as numbers of steps are given: the journal of each has room for what its driver gives in so many
    /// steps, each at most 2^58, as all numbers of 32 bits are. Memory is taken here.
    ///
    /// Error: [`OutOfMemory`] where memory was refused.
    pub fn new(
        alloc: Global,
        bits: u64,
        starts: u64,
        steps: Vec<u64>,
        script: FaultScript,
    ) -> Result<Bus, OutOfMemory>
        requires nodes { (1 ≤ length steps.items) × (length steps.items ≤ 8) }
        requires bits { (1 ≤ bits) × (bits ≤ 2 ^ 62) }
        requires steps { All (λ n. n ≤ 2 ^ 58) steps.items }
        ensures { IfOk result (λ b. b ≡ new_bus script bits (length steps.items) starts steps.items) }
    {
        let count = steps.len();
        let struck = StruckBits::new(alloc, script, bits)?;
        let mut bus_nodes = Vec::with_capacity(alloc, count)?;
        for node in 0..count {
            bus_nodes.push_reserved(BusNode::new(alloc, node as u8, bits, steps[node])?);
        }
        let logs = Vec::with_capacity(alloc, count)?;
        Ok(Bus {
            struck,
            starts,
            steps,
            run: 0,
            left: bits,
            fault: None,
            bus_nodes,
            logs,
        })
    }

    /// Takes what the drivers gave: of each node in order all that its links show, one link after the other. `links`
    /// are the ends of the nodes' links, in order, each with as many as the bus was made for. What holds of every bus
    /// is said of the one before it.
    ///
    /// Error: [`BusFault::BadCredit`], [`BusFault::BadOrder`] or [`BusFault::JournalFull`], and then the same always.
    #[inline(always)]
    pub fn gather<E: BusEnd>(&mut self, links: &mut [E]) -> Result<(), BusFault>
        requires ends { AreEnds E.node (length self.old.journals) links.old }
        requires links { HaveLinks E.links self.old.starts links.old }
        ensures lawful { self.old.fault ≡ None →
            IsBusRun self.old.script self.old.run self.old.journals }
        ensures sames { EachRelated E.same links.old links.new }
        ensures script { self.new.script ≡ self.old.script }
        ensures starts { self.new.starts ≡ self.old.starts }
        ensures steps { self.new.steps ≡ self.old.steps }
        ensures bits { (self.new.run ≡ self.old.run) × (self.new.left ≡ self.old.left) }
        ensures nodes { length self.new.journals ≡ length self.old.journals }
        ensures kept { OnOk result (KeepsAll E.stands self.old.journals self.new.journals links.old links.new) }
        ensures within { OnOk result (AreOnLinks self.new.starts self.new.journals) }
        ensures items { OnOk result (EachJournal MayHaveItems self.old.journals self.new.journals) }
        ensures untold { OnOk result (EachUntold self.old.untold self.new.untold self.old.journals self.new.journals) }
        ensures dry { OnOk result (AllDry E.dry self.new.journals links.new) }
        ensures right { OnOk result (self.new.fault ≡ None) }
        ensures fault { IfErr result (λ f. self.new.fault ≡ Some f) }
        ensures reason { IfErr result (λ f. self.old.fault ≡ None →
            IsTakenAndRefused E.BusEnd (self.old.run + self.old.left) self.old.steps self.old.journals
            self.new.journals links.old links.new f) }
        ensures stays { (f : Fault) → self.old.fault ≡ Some f →
            (result ≡ Err f) × (self.new ≡ self.old) × (links.new ≡ links.old) }
    {
        if let Some(fault) = self.fault {
            return Err(fault);
        }
        match gather_all(self.bus_nodes.as_mut_slice(), links) {
            Ok(()) => Ok(()),
            Err(fault) => {
                self.fault = Some(fault);
                Err(fault)
            }
        }
    }

    /// Whether there is a further bit.
    ///
    /// Error: the fault that is answered always, or that no bit is left.
    fn goes_on(&self) -> Result<(), BusFault>
        ensures fault { (f : Fault) → self.now.fault ≡ Some f → result ≡ Err f }
        ensures spent { self.now.fault ≡ None → self.now.left ≡ 0 → result ≡ Err BitsSpent }
        ensures ok { OnOk result ((self.now.fault ≡ None) × (self.now.left ≢ 0)) }
        ensures some { IfErr result (λ f. (f ≡ BitsSpent) ⊎ (self.now.fault ≡ Some f)) }
        ensures why { IfErr result (λ f. self.now.fault ≡ None → (f ≡ BitsSpent) × (self.now.left ≡ 0)) }
    {
        match self.fault {
            Some(fault) => Err(fault),
            None if self.left == 0 => Err(BusFault::BitsSpent),
            None => Ok(()),
        }
    }

    /// One bit. Of each node in order all that its links show is taken, until the one that is read shows nothing, and
    /// then an abort that stands is applied; all nodes drive; all see the level, or the other one where the script
    /// strikes them; each received frame that passes is judged and put; each port is told the turn of the bit, unless
    /// there is nothing to tell.
    ///
    /// Error: [`BusFault::BitsSpent`] where no bit is left; nothing changed. After any other fault the same always. A
    /// bit that doesn't come to its end isn't counted.
    pub fn bit<E: BusEnd, B: Board>(
        &mut self,
        links: &mut [E],
        board: &mut B,
    ) -> Result<(), BusFault>
        requires ends { AreEnds E.node (length self.old.journals) links.old }
        requires links { HaveLinks E.links self.old.starts links.old }
        requires ports { length self.old.journals ≤ B.ports board.old }
        ensures keeps { Keeps E.BusEnd B.Board
            (moment self.old links.old board.old) (moment self.new links.new board.new) }
        ensures bit { OnOk result (OneBit E.BusEnd B.Board
            (moment self.old links.old board.old) (moment self.new links.new board.new)) }
        ensures takes { OnOk result (TakesAll E.BusEnd self.old.journals self.new.journals links.old) }
        ensures unrun { IfErr result (λ f. (self.new.run ≡ self.old.run) × (self.new.left ≡ self.old.left)) }
        ensures fault { IfErr result (λ f. (f ≡ BitsSpent) ⊎ (self.new.fault ≡ Some f)) }
        ensures reason { IfErr result (λ f. self.old.fault ≡ None →
            StopsBit E.BusEnd (B.orders_are board.old) self.old self.new links.old links.new f) }
        ensures spent { self.old.left ≡ 0 → self.old.fault ≡ None →
            (result ≡ Err BitsSpent) × IsStill self.old self.new links.old links.new board.old board.new }
        ensures stays { (f : Fault) → self.old.fault ≡ Some f →
            (result ≡ Err f) × IsStill self.old self.new links.old links.new board.old board.new }
    {
        self.goes_on()?;
        let struck = self.struck.at(self.run);
        match bit_of_all(self.bus_nodes.as_mut_slice(), links, board, struck) {
            Ok(()) => {
                self.run += 1;
                self.left -= 1;
                Ok(())
            }
            Err(fault) => {
                self.fault = Some(fault);
                Err(fault)
            }
        }
    }

    /// How many bits were run. What holds of every bus without a fault is said beside it: by every cut of each node's
    /// record the verdicts are right, what each node saw in each bit is what the wire had, and no more activations of a
    /// node have begun than there are links for.
    pub fn bits_run(&self) -> u64
        ensures value { result ≡ self.now.run }
        ensures lawful { self.now.fault ≡ None → IsBusRun self.now.script self.now.run self.now.journals }
        ensures within { self.now.fault ≡ None → AreOnLinks self.now.starts self.now.journals }
    {
        self.run
    }

    /// How many bits are left.
    pub fn bits_left(&self) -> u64
        ensures { result ≡ self.now.left }
    {
        self.left
    }

    /// What is left of the nodes, in order: each journal, and the error counters at its end. By every cut of a
    /// journal's record, and there is one alone, the verdicts and the counters are right; what each node saw in each
    /// bit is what the wire had.
    ///
    /// Error: [`Endless`] where a journal was made for more entries than it keeps, 2^40.
    pub fn finish(self) -> Result<Vec<NodeLog>, Endless>
        ensures journals { IfOk result (λ logs. map (λ g. g.journal.entries) logs.items ≡ self.journals) }
        ensures lawful { IfOk result (λ logs. self.fault ≡ None →
            IsBusRun self.script self.run (map (λ g. g.journal.entries) logs.items)) }
        ensures counters { IfOk result (λ logs. self.fault ≡ None → (node : ℕ) (d : Log) → node < length logs.items →
            let log = slice_index_or logs.items node d in
            CountersAre log.journal.entries log.txerr log.rxerr) }
        ensures kept { OnOk result (KeepsRecord (self.run + self.left) self.steps (length self.journals)) }
        ensures endless { OnErr result (KeepsRecord (self.run + self.left) self.steps (length self.journals) → ⊥) }
    {
        let Bus {
            bus_nodes,
            logs,
            ..
        } = self;
        logs_of(bus_nodes, logs)
    }
}
