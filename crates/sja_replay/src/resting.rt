//! Bits of a node at rest, gone over at once: nothing happens in them, and the node stays as it is.

use super::replay::{Replay, is_same};
use super::short_bit::ShortBit;
use can_levels::Level;

impl<'a> Replay<'a> {
    ghost use Rattle.std.specs.Prelude.{◌≡◌, ◌<◌, ◌≤◌, ℕ, suc, true, List};
    ghost use Rattle.can_levels.specs.declared.level.Level.TheVariants.{Recessive};
    ghost use Rattle.sja_journal.specs.declared.entry.Entry.{Entry as Item};
    ghost use Rattle.sja_replay.specs.Replaying.{IsAt};
    ghost use Rattle.sja_replay.specs.ReplayRest.{AwaitsRest, RestsFor, rested};
    ghost use Rattle.sja_replay.specs.Short.{LooksAt, PassesBit};

    /// For how many of the next bits, at most so many, the node stays at rest: it is in reset, or the bus is idle and
    /// it holds no request, and as the entries say it drives and sees recessive. It may be for more of them.
    pub fn rest_for(&self, most: u32) -> u32
        ensures most { result ≤ most }
        ensures rests { 0 < result → RestsFor self.now result }
    {
        if !self.awaits_rest() {
            return 0;
        }
        let most = most.min(u32::MAX - self.bits);
        self.entries.rest_bits(most as usize) as u32
    }

    /// Goes on past so many of these bits, and gives in short what each of them brought.
    pub fn rest(&mut self, count: u32) -> ShortBit
        requires { RestsFor self.old count }
        ensures new { self.new ≡ rested count self.old }
        ensures passes { (i : ℕ) (before : List Item) → i < count → IsAt (rested i self.old) before
            → PassesBit (rested i self.old) (rested (suc i) self.old) before result }
        ensures looks { LooksAt self.old.node Recessive Recessive result }
    {
        self.bits += count;
        self.entries.skip_rest_bits(count as usize);
        self.short(Level::Recessive, Level::Recessive)
    }

    /// What the node shows of a bit in which it drives and sees recessive.
    pub fn rest_bit(&self) -> ShortBit
        ensures { LooksAt self.now.node Recessive Recessive result }
    {
        self.short(Level::Recessive, Level::Recessive)
    }

    /// Whether the node is at rest and drives recessive, and the entry that comes next is a bit in which it did and saw
    /// recessive.
    fn awaits_rest(&self) -> bool
        ensures { result ≡ true → AwaitsRest self.now }
    {
        if self.aborted || !self.node.at_rest() {
            return false;
        }
        let Some((Level::Recessive, Level::Recessive)) = self.levels_ahead() else {
            return false;
        };
        is_same(self.node.drive(), Level::Recessive)
    }
}
