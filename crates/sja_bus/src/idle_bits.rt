//! Bits in which every node of a bus is at rest: they are run at once.

ghost use Rattle.std.specs.Prelude.{◌≡◌, ◌<◌, ℕ, true, false, length, slice_index_or, ◌≤◌, OnOk, IfErr};
ghost use Rattle.can_node.specs.Stands.{ShowsRest};
ghost use Rattle.sja_bus.specs.declared.bus_node.BusNode.{BusNode as BusNodeValue};
ghost use Rattle.sja_bus.specs.Inside.Idling.{AreResting, IsOneAwake, all_after, IsFullBy};
ghost use Rattle.sja_bus.specs.Inside.Refusing.{AreFree, HaveRoom};
ghost use Rattle.sja_journal.specs.Written.{Room};
ghost use Rattle.sja_bus.specs.Inside.Rows.{AreReady};

use super::bits::fewer;
use super::board::Board;
use super::bus::Bus;
use super::bus_node::BusNode;
use super::pending_event::PendingEvent;
use sja_journal::BusFault;
use sja_link::BusEnd;

impl Bus {
    ghost use Rattle.std.specs.Prelude.{◌≡◌, ◌≢◌, ◌+◌, ◌≤◌, ◌⊎◌, None, Some, Ok, Err, length, OnOk, IfOk};
    ghost use Rattle.std.specs.Prelude.{IfErr, true, false};
    ghost use Rattle.lemmas.specs.Related.{EachRelated};
    ghost use Rattle.sja_journal.specs.declared.bus_fault.BusFault.{BusFault as Fault};
    ghost use Rattle.sja_journal.specs.Links.{AreEnds, HaveLinks};
    ghost use Rattle.sja_journal.specs.BitEntries.{MayHaveItems};
    ghost use Rattle.sja_bus_rules.specs.Buses.{AreOnLinks, EachJournal, EachUntold, KeepsAll, AllDry, AllTold};
    ghost use Rattle.sja_bus_rules.specs.Reasons.{IsTakenAndRefused};
    ghost use Rattle.sja_bus.specs.Stretches.{IsStretch, EndsStretch, IsOutOfEntries, IsFullInStretch};
    ghost use Rattle.sja_bus.specs.Inside.AtOnce.{RunsAtOnce};
    ghost use Rattle.sja_bus.specs.Inside.Idling.{IsResting, IsAwake, IsFullAfter, after_bits};
    ghost use Rattle.sja_bus.specs.Inside.BusNodes.{IsReady};

    /// Takes what the drivers gave, as [`gather`](Bus::gather) does, and then runs up to so many bits at once, as far
    /// as every node is at rest, nothing was taken or is untold, no strike falls and a bit is left. Answers how many.
    ///
    /// They are what as many calls of [`bit`](Bus::bit) are that find nothing on any link: each node drives and sees
    /// recessive, and no port is told anything. An answer of 0 says that the next bit takes a call of `bit`. `links`
    /// are the ends of the nodes' links, in order.
    ///
    /// Error: [`BusFault::BadCredit`], [`BusFault::BadOrder`] or [`BusFault::JournalFull`], and then the same always.
    pub fn quiet_bits<E: BusEnd, B: Board>(
        &mut self,
        links: &mut [E],
        board: &B,
        count: u32,
    ) -> Result<u32, BusFault>
        requires ends { AreEnds E.node (length self.old.journals) links.old }
        requires links { HaveLinks E.links self.old.starts links.old }
        requires ports { length self.old.journals ≤ B.ports board.now }
        ensures sames { EachRelated E.same links.old links.new }
        ensures script { self.new.script ≡ self.old.script }
        ensures starts { self.new.starts ≡ self.old.starts }
        ensures steps { self.new.steps ≡ self.old.steps }
        ensures nodes { length self.new.journals ≡ length self.old.journals }
        ensures most { IfOk result (λ n. n ≤ count) }
        ensures bits { IfOk result (λ n. (self.new.run ≡ self.old.run + n) × (self.new.left + n ≡ self.old.left)) }
        ensures kept { OnOk result (KeepsAll E.stands self.old.journals self.new.journals links.old links.new) }
        ensures within { OnOk result (AreOnLinks self.new.starts self.new.journals) }
        ensures dry { OnOk result (AllDry E.dry self.new.journals links.new) }
        ensures items { result ≡ Ok 0 → EachJournal MayHaveItems self.old.journals self.new.journals }
        ensures untold { result ≡ Ok 0 →
            EachUntold self.old.untold self.new.untold self.old.journals self.new.journals }
        ensures stretch { IfOk result (λ n. n ≢ 0 → IsStretch (B.orders_are board.now) (B.told board.now board.now)
            (B.kept board.now board.now) self.old.script self.old.run n self.old.untold
            self.old.journals self.new.journals) }
        ensures longest { IfOk result (λ n. EndsStretch count n self.new) }
        ensures told { IfOk result (λ n. n ≢ 0 → AllTold (length self.old.journals) self.new.untold) }
        ensures right { OnOk result (self.new.fault ≡ None) }
        ensures fault { IfErr result (λ f. self.new.fault ≡ Some f) }
        ensures reason { IfErr result (λ f. self.old.fault ≡ None →
            IsTakenAndRefused E.BusEnd (self.old.run + self.old.left) self.old.steps self.old.journals
            self.new.journals links.old links.new f
            ⊎ IsFullInStretch E.BusEnd self.old.starts (self.old.run + self.old.left) self.old.steps self.old.left
            self.old.journals self.new.journals links.old links.new f) }
        ensures stays { (f : Fault) → self.old.fault ≡ Some f →
            (result ≡ Err f) × (self.new ≡ self.old) × (links.new ≡ links.old) }
    {
        self.gather(links)?;
        self.run_idle_bits(board, count)
    }

    /// Runs bits at once as far as it can: nothing waits on any link.
    fn run_idle_bits<B: Board>(&mut self, board: &B, count: u32) -> Result<u32, BusFault>
        requires right { self.old.fault ≡ None }
        requires ports { length self.old.journals ≤ B.ports board.now }
        ensures script { self.new.script ≡ self.old.script }
        ensures starts { self.new.starts ≡ self.old.starts }
        ensures steps { self.new.steps ≡ self.old.steps }
        ensures nodes { length self.new.journals ≡ length self.old.journals }
        ensures within { OnOk result (AreOnLinks self.new.starts self.new.journals) }
        ensures runs { IfOk result (λ n. RunsAtOnce B.Board board.now count self.old self.new n) }
        ensures longest { IfOk result (λ n. EndsStretch count n self.new) }
        ensures fault { IfErr result (λ f. self.new.fault ≡ Some f) }
        ensures reason { IfErr result (λ f.
            IsOutOfEntries (self.old.run + self.old.left) self.old.steps self.old.left self.old.journals
            self.new.journals f) }
    {
        let most = fewer(count, self.left);
        let bits = self.struck.quiet_for(self.run, most);
        if bits == 0 || !are_resting(self.bus_nodes.as_slice()) {
            return Ok(0);
        }
        match all_enter_idle_bits(self.bus_nodes.as_mut_slice(), bits) {
            Ok(()) => {
                self.run += bits as u64;
                self.left -= bits as u64;
                Ok(bits)
            }
            Err(fault) => {
                self.fault = Some(fault);
                Err(fault)
            }
        }
    }
}

/// Whether every node is at rest, and its port is told all. What the ports order isn't asked: an abort finds no
/// request.
fn are_resting(bus_nodes: &[BusNode]) -> bool
    requires { AreReady bus_nodes.now }
    ensures yes { result ≡ true → AreResting bus_nodes.now }
    ensures no { result ≡ false → IsOneAwake bus_nodes.now }
{
    for k in 0..bus_nodes.len() {
        if !bus_nodes[k].is_resting() {
            return false;
        }
    }
    true
}

/// Whether every node is at rest.
pub(crate) fn are_at_rest(bus_nodes: &[BusNode]) -> bool
    ensures rest { result ≡ true → (k : ℕ) (s : BusNodeValue) → k < length bus_nodes.now →
        ShowsRest (slice_index_or bus_nodes.now k s).node true }
    ensures busy { result ≡ false → (k : ℕ) × (k < length bus_nodes.now)
        × ((s : BusNodeValue) → ShowsRest (slice_index_or bus_nodes.now k s).node false) }
{
    for k in 0..bus_nodes.len() {
        if !bus_nodes[k].node.at_rest() {
            return false;
        }
    }
    true
}

/// So many recessive bits of all nodes, which are at rest.
fn all_enter_idle_bits(bus_nodes: &mut [BusNode], count: u32) -> Result<(), BusFault>
    requires ready { AreReady bus_nodes.old }
    ensures rooms { (n : ℕ → Room) → HaveRoom n bus_nodes.old → HaveRoom n bus_nodes.new }
    ensures rested { OnOk result (bus_nodes.new ≡ all_after count bus_nodes.old) }
    ensures full { IfErr result (λ f. IsFullBy count bus_nodes.old bus_nodes.new f) }
{
    for k in 0..bus_nodes.len() {
        bus_nodes[k].enter_idle_bits(count)?;
    }
    Ok(())
}

/// The same, for which each journal has room.
pub(crate) fn all_rest(bus_nodes: &mut [BusNode], count: u32)
    requires free { AreFree count bus_nodes.old }
    ensures { bus_nodes.new ≡ all_after count bus_nodes.old }
{
    for k in 0..bus_nodes.len() {
        bus_nodes[k].rest(count);
    }
}

impl BusNode {
    ghost use Rattle.std.specs.Prelude.{◌≡◌, ◌≢◌, ◌+◌, ◌-◌, ◌≤◌, ◌⊎◌, None, Some, Ok, Err, length, OnOk, IfOk};
    ghost use Rattle.std.specs.Prelude.{IfErr, true, false};
    ghost use Rattle.lemmas.specs.Related.{EachRelated};
    ghost use Rattle.sja_journal.specs.declared.bus_fault.BusFault.{BusFault as Fault};
    ghost use Rattle.sja_journal.specs.Links.{AreEnds, HaveLinks};
    ghost use Rattle.sja_journal.specs.BitEntries.{MayHaveItems};
    ghost use Rattle.sja_bus_rules.specs.Buses.{AreOnLinks, EachJournal, EachUntold, KeepsAll, AllDry, AllTold};
    ghost use Rattle.sja_bus_rules.specs.Reasons.{IsTakenAndRefused};
    ghost use Rattle.sja_bus.specs.Stretches.{IsStretch, EndsStretch, IsOutOfEntries, IsFullInStretch};
    ghost use Rattle.sja_bus.specs.Inside.AtOnce.{RunsAtOnce};
    ghost use Rattle.sja_bus.specs.Inside.Idling.{IsResting, IsAwake, IsFullAfter, after_bits};
    ghost use Rattle.sja_bus.specs.Inside.BusNodes.{IsReady};

    /// Whether the node is at rest, and its port is told all.
    fn is_resting(&self) -> bool
        requires { IsReady self.now }
        ensures yes { result ≡ true → IsResting self.now }
        ensures no { result ≡ false → IsAwake self.now }
    {
        match self.untold {
            PendingEvent::Nothing => self.node.at_rest(),
            _ => false,
        }
    }

    /// So many recessive bits of a node at rest: they change nothing but the journal.
    fn enter_idle_bits(&mut self, count: u32) -> Result<(), BusFault>
        ensures room { self.new.journal.room ≡ self.old.journal.room }
        ensures rested { OnOk result (self.new ≡ after_bits count self.old) }
        ensures full { IfErr result (λ f. IsFullAfter count self.old self.new f) }
    {
        let free = self.journal.free();
        if free < count as usize {
            self.journal.enter_rest_reserved(free as u32);
            return Err(BusFault::JournalFull(self.number()));
        }
        self.rest(count);
        Ok(())
    }

    /// The same, for which the journal has room.
    fn rest(&mut self, count: u32)
        requires { count ≤ self.old.journal.room.all - length self.old.journal.entries }
        ensures { self.new ≡ after_bits count self.old }
    {
        self.journal.enter_rest_reserved(count);
    }
}
