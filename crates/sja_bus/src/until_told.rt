//! Bits of a bus up to the first in which a port is told its turn.

use super::bits::{may_run_untaken, untaken_bits};
use super::board::Board;
use super::bus::Bus;
use sja_journal::BusFault;
use sja_link::BusEnd;

impl Bus {
    ghost use Rattle.std.specs.Prelude.{◌≡◌, ◌≢◌, ◌+◌, ◌<◌, ◌≤◌, ℕ, false, None, Some, Ok, Err, length};
    ghost use Rattle.std.specs.Prelude.{OnOk, IfOk, IfErr};
    ghost use Rattle.sja_steps.specs.Striking.{Strikes};
    ghost use Rattle.sja_journal.specs.declared.bus_fault.BusFault.{BusFault as Fault};
    ghost use Rattle.sja_journal.specs.Links.{AreEnds, HaveLinks};
    ghost use Rattle.sja_bus_rules.specs.Buses.{IsStill};
    ghost use Rattle.sja_bus.specs.Moment.{moment, Keeps};
    ghost use Rattle.sja_bus.specs.UntilTold.{RunsUntilTold, StopsUntilTold, EndsUntilTold, RunsNone};
    ghost use Rattle.sja_bus.specs.UntilTold.{HasFree, IsCalm, WorksUntold};
    ghost use Rattle.sja_bus.specs.Inside.RunningOn.{AnyBit, IsSoFar, IsStopped, MayRunBits};

    /// Bits one after another up to the first in which a port is told its turn: at most so many, and as many as are
    /// left, as far as nothing is untold, no port wants an abort and no strike falls, with `to_rest` as long as some
    /// node works. Answers how many they were.
    ///
    /// They are what as many calls of [`bit`](Bus::bit) are that find nothing on any link. In none of them but the last
    /// one a port is told anything, a message is judged, or a node goes bus-off: the bit says what stood before it, and
    /// nothing else. They end where a port was told more in the last one, and else only where none more is asked for or
    /// left, every node is at rest and `to_rest` is set, a strike falls in the next one, or a journal is full. Where
    /// none was run though some were asked for and are left, the next bit takes a call of `bit`. `links` are the
    /// ends of the nodes' links, in order.
    ///
    /// Error: after some of these bits, [`BusFault::Stuck`] or [`BusFault::JournalFull`], and then the same always. The
    /// bits before it count.
    pub fn bits_until_told<E: BusEnd, B: Board>(
        &mut self,
        links: &mut [E],
        board: &mut B,
        count: u32,
        to_rest: bool,
    ) -> Result<u32, BusFault>
        requires ends { AreEnds E.node (length self.old.journals) links.old }
        requires links { HaveLinks E.links self.old.starts links.old }
        requires ports { length self.old.journals ≤ B.ports board.old }
        ensures keeps { Keeps E.BusEnd B.Board
            (moment self.old links.old board.old) (moment self.new links.new board.new) }
        ensures most { IfOk result (λ n. n ≤ count) }
        ensures bits { IfOk result (λ n. RunsUntilTold E.BusEnd B.Board to_rest
            (moment self.old links.old board.old) n (moment self.new links.new board.new)) }
        ensures unstruck { IfOk result (λ n. (i node : ℕ) → i < n → node < 8 →
            Strikes self.old.script (self.old.run + i) node → ⊥) }
        ensures none { result ≡ Ok 0 → RunsNone (B.orders_are board.old) to_rest count self.old }
        ensures calm { IfOk result (λ n. n ≢ 0 → IsCalm (B.orders_are board.old) self.old) }
        ensures free { IfOk result (λ n. n ≢ 0 → HasFree n self.old) }
        ensures longest { IfOk result (λ n. n ≢ 0 → EndsUntilTold B.Board to_rest count
            (moment self.old links.old board.old) n (moment self.new links.new board.new)) }
        ensures right { OnOk result (self.new.fault ≡ None) }
        ensures fault { IfErr result (λ f. self.new.fault ≡ Some f) }
        ensures reason { IfErr result (λ f. self.old.fault ≡ None → StopsUntilTold E.BusEnd B.Board to_rest count
            (moment self.old links.old board.old) (moment self.new links.new board.new) f) }
        ensures stays { (f : Fault) → self.old.fault ≡ Some f →
            (result ≡ Err f) × IsStill self.old self.new links.old links.new board.old board.new }
    {
        let most = self.at_most(count)?;
        self.run_until_told(links, board, most, to_rest)
    }

    /// The same, at most so many as are left, with `to_rest` as long as some node works.
    #[inline(always)]
    pub(crate) fn run_until_told<E: BusEnd, B: Board>(
        &mut self,
        links: &mut [E],
        board: &mut B,
        most: u32,
        to_rest: bool,
    ) -> Result<u32, BusFault>
        requires { MayRunBits E.BusEnd self.old links.old (B.ports board.old) most }
        ensures most { IfOk result (λ n. n ≤ most) }
        ensures runs { IfOk result (λ n. IsSoFar E.BusEnd B.Board (AnyBit E.BusEnd B.Board)
            (WorksUntold to_rest (moment self.old links.old board.old))
            (moment self.old links.old board.old) n (moment self.new links.new board.new)) }
        ensures unstruck { IfOk result (λ n. (i node : ℕ) → i < n → node < 8 →
            Strikes self.old.script (self.old.run + i) node → ⊥) }
        ensures none { result ≡ Ok 0 → RunsNone (B.orders_are board.old) to_rest most self.old }
        ensures calm { IfOk result (λ n. n ≢ 0 → IsCalm (B.orders_are board.old) self.old) }
        ensures free { IfOk result (λ n. n ≢ 0 → HasFree n self.old) }
        ensures longest { IfOk result (λ n. n ≢ 0 → EndsUntilTold B.Board to_rest most
            (moment self.old links.old board.old) n (moment self.new links.new board.new)) }
        ensures stops { IfErr result (λ f. IsStopped E.BusEnd B.Board (WorksUntold to_rest (moment self.old
            links.old board.old)) most (moment self.old links.old board.old) (moment self.new links.new board.new) f) }
    {
        if !may_run_untaken(self.bus_nodes.as_slice(), board) {
            return Ok(0);
        }
        let (bus_nodes, struck) = (self.bus_nodes.as_mut_slice(), &mut self.struck);
        match untaken_bits(bus_nodes, links, board, struck, self.run, most, to_rest) {
            Ok(bits) => {
                self.run += bits as u64;
                self.left -= bits as u64;
                Ok(bits)
            }
            Err(broken) => {
                self.run += broken.after as u64;
                self.left -= broken.after as u64;
                self.fault = Some(broken.fault);
                Err(broken.fault)
            }
        }
    }
}
