//! Bits of a bus, one after another.

ghost use Rattle.std.specs.Prelude.{◌≡◌, ◌+◌, ◌<◌, ◌≤◌, ℕ, true, length, slice_index_or, IfOk};
ghost use Rattle.std.specs.Prelude.{◌⊎◌, false, IfErr, MatchResult};
ghost use Rattle.can_node.specs.Stands.{ShowsRest};
ghost use Rattle.sja_bus.specs.declared.bus_node.BusNode.{BusNode as BusNodeValue};
ghost use Rattle.sja_bus.specs.Inside.Refusing.{AreFree};
ghost use Rattle.can_levels.specs.BusLevel.{wired};
ghost use Rattle.sja_bus.specs.Inside.Rows.{AreReady, AreOnBus, IsBus, driven_by};
ghost use Rattle.sja_bus.specs.Inside.RunningOn.{MayRunOn, RowsStop};
ghost use Rattle.sja_bus.specs.Inside.Longest.{KeepsRows, RunsLongest};
ghost use Rattle.sja_bus.specs.Inside.RunningOn.{AllAtRest, SomeAborts, SomeFull, SomeUntold};

use super::all_nodes::sample_all;
use super::board::Board;
use super::broken_bit::BrokenBit;
use super::bus::Bus;
use super::bus_node::BusNode;
use super::idle_bits::are_at_rest;
use super::ports::are_told;
use super::struck_bits::StruckBits;
use super::struck_nodes::StruckNodes;
use super::together::run_together;
use super::wire::level_of;
use can_levels::Level;
use sja_journal::BusFault;
use sja_link::BusEnd;

impl Bus {
    ghost use Rattle.std.specs.Prelude.{◌≡◌, ◌≤◌, ◌⊎◌, None, Some, Err, true, length, OnOk, IfOk};
    ghost use Rattle.std.specs.Prelude.{IfErr};
    ghost use Rattle.sja_journal.specs.declared.bus_fault.BusFault.{BusFault as Fault};
    ghost use Rattle.sja_journal.specs.Links.{AreEnds, HaveLinks};
    ghost use Rattle.sja_bus_rules.specs.Buses.{IsStill};
    ghost use Rattle.sja_bus.specs.Moment.{moment, Keeps};
    ghost use Rattle.sja_bus.specs.Several.{AllRest, RunsBits, StopsBits, WorksIf};
    ghost use Rattle.sja_bus.specs.Inside.RunningOn.{AnyBit, IsSoFar, IsStopped, MayRunBits};

    /// Bits one after another: so many, or as many as are left; with `to_rest` only as long as some node isn't at rest.
    /// Answers how many they were.
    ///
    /// They are what as many calls of [`bit`](Bus::bit) are between which no driver does anything: what the drivers
    /// gave is taken before the first of them. `links` are the ends of the nodes' links, in order.
    ///
    /// Error: after some of these bits, any fault of [`bit`](Bus::bit) but [`BusFault::BitsSpent`], and then the same
    /// always. The bits before it count.
    pub fn bits<E: BusEnd, B: Board>(
        &mut self,
        links: &mut [E],
        board: &mut B,
        count: u32,
        to_rest: bool,
    ) -> Result<u32, BusFault>
        requires ends { AreEnds E.node (length self.old.journals) links.old }
        requires links { HaveLinks E.links self.old.starts links.old }
        requires ports { length self.old.journals ≤ B.ports board.old }
        ensures keeps { Keeps E.BusEnd B.Board
            (moment self.old links.old board.old) (moment self.new links.new board.new) }
        ensures most { IfOk result (λ n. n ≤ count) }
        ensures bits { IfOk result (λ n. RunsBits E.BusEnd B.Board to_rest
            (moment self.old links.old board.old) n (moment self.new links.new board.new)) }
        ensures whole { IfOk result (λ n.
            (n ≡ count) ⊎ (self.new.left ≡ 0) ⊎ ((to_rest ≡ true) × AllRest self.new.journals)) }
        ensures right { OnOk result (self.new.fault ≡ None) }
        ensures fault { IfErr result (λ f. self.new.fault ≡ Some f) }
        ensures reason { IfErr result (λ f. self.old.fault ≡ None → StopsBits E.BusEnd B.Board to_rest count
            (moment self.old links.old board.old) (moment self.new links.new board.new) f) }
        ensures stays { (f : Fault) → self.old.fault ≡ Some f →
            (result ≡ Err f) × IsStill self.old self.new links.old links.new board.old board.new }
    {
        let most = self.at_most(count)?;
        let mut run = 0;
        while run < most {
            if to_rest && self.at_rest() {
                return Ok(run);
            }
            self.bit(links, board)?;
            run += 1;
            run += self.run_untaken_bits(links, board, most - run, to_rest)?;
        }
        Ok(run)
    }

    /// So many bits, or as many as are left.
    ///
    /// Error: the fault that is answered always.
    pub(crate) fn at_most(&self, count: u32) -> Result<u32, BusFault>
        ensures right { OnOk result (self.now.fault ≡ None) }
        ensures count { IfOk result (λ n. n ≤ count) }
        ensures left { IfOk result (λ n. n ≤ self.now.left) }
        ensures whole { IfOk result (λ n. (n ≡ count) ⊎ (n ≡ self.now.left)) }
        ensures fault { IfErr result (λ f. self.now.fault ≡ Some f) }
        ensures stays { (f : Fault) → self.now.fault ≡ Some f → result ≡ Err f }
    {
        if let Some(fault) = self.fault {
            return Err(fault);
        }
        Ok(fewer(count, self.left))
    }

    /// Further bits, at most so many: as far as no strike falls and no abort stands at any port, with `to_rest` as long
    /// as some node works. They go on past a bit in which a port is told something. Answers how many.
    ///
    /// Nothing is taken from the links in them.
    ///
    /// Error: [`BusFault::Stuck`] or [`BusFault::JournalFull`], and then the same always. The bits before it count.
    fn run_untaken_bits<E: BusEnd, B: Board>(
        &mut self,
        links: &mut [E],
        board: &mut B,
        further: u32,
        to_rest: bool,
    ) -> Result<u32, BusFault>
        requires { MayRunBits E.BusEnd self.old links.old (B.ports board.old) further }
        ensures most { IfOk result (λ n. n ≤ further) }
        ensures runs { IfOk result (λ n. IsSoFar E.BusEnd B.Board (AnyBit E.BusEnd B.Board) (WorksIf to_rest)
            (moment self.old links.old board.old) n (moment self.new links.new board.new)) }
        ensures stops { IfErr result (λ f. IsStopped E.BusEnd B.Board (WorksIf to_rest) further
            (moment self.old links.old board.old) (moment self.new links.new board.new) f) }
    {
        let mut run = 0;
        while run < further {
            let bits = self.run_until_told(links, board, further - run, to_rest)?;
            if bits == 0 {
                return Ok(run);
            }
            run += bits;
        }
        Ok(run)
    }
}

/// Whether no port wants an abort, and the ports are told all.
pub(crate) fn may_run_untaken<B: Board>(bus_nodes: &[BusNode], board: &B) -> bool
    requires ready { AreReady bus_nodes.now }
    requires ports { length bus_nodes.now ≤ B.ports board.now }
    ensures may { result ≡ true → MayRunOn B.Board board.now bus_nodes.now }
    ensures no { result ≡ false →
        SomeAborts (B.orders_are board.now) (length bus_nodes.now) ⊎ SomeUntold bus_nodes.now }
{
    for k in 0..bus_nodes.len() {
        if board.orders(bus_nodes[k].number()).abort {
            return false;
        }
    }
    are_told(bus_nodes)
}

/// Bits of all nodes from this one on, at most so many: as far as no node is struck and each journal has room, with
/// `to_rest` as long as some node works, and up to the first in which a port is told something. Answers how many.
#[inline(never)]
pub(crate) fn untaken_bits<E: BusEnd, B: Board>(
    bus_nodes: &mut [BusNode],
    links: &mut [E],
    board: &mut B,
    struck: &mut StruckBits,
    from: u64,
    most: u32,
    to_rest: bool,
) -> Result<u32, BrokenBit>
    requires on_bus { AreOnBus E.node bus_nodes.old links.old (B.ports board.old) }
    requires may { MayRunOn B.Board board.old bus_nodes.old }
    requires bus { IsBus struck.old.script from bus_nodes.old }
    requires on { struck.old.from ≤ from }
    requires within { from + most ≤ struck.old.bits }
    ensures same { struck.new ≡ struck.old }
    ensures keeps { KeepsRows E.BusEnd B.Board bus_nodes.old bus_nodes.new links.old links.new board.old board.new }
    ensures most { MatchResult result (λ n. n ≤ most) (λ f. f.after < most) }
    ensures runs { IfOk result (λ n. RunsLongest E.BusEnd B.Board to_rest struck.old.script from most
        bus_nodes.old bus_nodes.new links.old links.new board.old board.new n) }
    ensures breaks { IfErr result (λ f. RowsStop E.BusEnd B.Board to_rest struck.old.script from most
        bus_nodes.old bus_nodes.new links.old links.new board.old board.new f) }
{
    let fit = room_of(bus_nodes, most);
    let calm = struck.quiet_for(from, fit);
    let (mut run, mut level) = (0, level_of(bus_nodes));
    while run < calm && goes_on(bus_nodes, to_rest) {
        let end = match sample_all(bus_nodes, links, level, StruckNodes::none(), board) {
            Ok(end) => end,
            Err(fault) => return Err(BrokenBit { after: run, fault }),
        };
        run += 1;
        if end.told {
            return Ok(run);
        }
        let together = run_together(bus_nodes, calm - run, run, to_rest);
        run += together;
        level = level_after(bus_nodes, together, end.level);
    }
    Ok(run)
}

/// Whether some node works, where that is asked for.
#[inline(always)]
fn goes_on(bus_nodes: &[BusNode], to_rest: bool) -> bool
    ensures works { result ≡ true → to_rest ≡ true → (k : ℕ) × (k < length bus_nodes.now)
        × ((s : BusNodeValue) → ShowsRest (slice_index_or bus_nodes.now k s).node false) }
    ensures no { result ≡ false → (to_rest ≡ true) × AllAtRest bus_nodes.now }
{
    if to_rest {
        !are_at_rest(bus_nodes)
    } else {
        true
    }
}

/// The level that all drive next: this one, where no bit more was run together.
#[inline(always)]
fn level_after(bus_nodes: &[BusNode], together: u32, level: Level) -> Level
    requires { together ≡ 0 → level ≡ wired (driven_by bus_nodes.now) }
    ensures { result ≡ wired (driven_by bus_nodes.now) }
{
    if together > 0 {
        level_of(bus_nodes)
    } else {
        level
    }
}

/// As many of these as are left.
pub(crate) fn fewer(count: u32, left: u64) -> u32
    ensures count { result ≤ count }
    ensures left { result ≤ left }
    ensures whole { (result ≡ count) ⊎ (result ≡ left) }
{
    u64::from(count).min(left) as u32
}

/// For how many bits that are entered alone each journal has room, at most so many.
fn room_of(bus_nodes: &[BusNode], most: u32) -> u32
    ensures most { result ≤ most }
    ensures free { AreFree result bus_nodes.now }
    ensures least { (result ≡ most) ⊎ SomeFull result bus_nodes.now }
{
    let mut free = most as usize;
    for k in 0..bus_nodes.len() {
        free = free.min(bus_nodes[k].journal.free());
    }
    free as u32
}
