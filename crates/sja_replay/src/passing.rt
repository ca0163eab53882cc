//! The quick way past a bit: in most bits nothing happens that is told.

ghost use Rattle.std.specs.Prelude.{◌≡◌, Some};
ghost use Rattle.sja_journal.specs.declared.entry.Entry.TheVariants.{Bit};

use super::replay::{Replay, is_same};
use super::short_bit::ShortBit;
use can_levels::Level;
use sja_journal::Entry;

impl<'a> Replay<'a> {
    ghost use Rattle.std.specs.Prelude.{◌≡◌, ◌<◌, None, Some, List, IfSome, length};
    ghost use Rattle.sja_journal.specs.declared.entry.Entry.{Entry as Item};
    ghost use Rattle.sja_journal.specs.declared.entry.Entry.TheVariants.{Bit};
    ghost use Rattle.sja_replay.specs.Replaying.{left_of, IsAt};
    ghost use Rattle.sja_replay.specs.Silent.{PassesSilently};
    ghost use Rattle.sja_replay.specs.Short.{LooksAt, PassesBit};
    ghost use Rattle.sja_replay.specs.Inside.Walking.{IsTakenFrom};

    /// Goes on past the next bit, where that is the entry that comes next and it tells nothing, and gives in short what
    /// it brought. Nothing where it isn't so, and then nothing changed: [`next`](Replay::next) is to be called. It may
    /// give nothing of a bit that tells nothing.
    #[inline(always)]
    pub fn pass(&mut self) -> Option<ShortBit>
        ensures passed { IfSome result (λ q. (before : List Item) → IsAt self.old before
            → PassesBit self.old self.new before q) }
        ensures shorter { IfSome result (λ q. length (left_of self.new) < length (left_of self.old)) }
        ensures none { result ≡ None → self.new ≡ self.old }
    {
        let (driven, seen) = self.levels_ahead()?;
        if self.aborted || !is_same(self.node.drive(), driven) {
            return None;
        }
        let bits = self.bits.checked_add(1)?;
        let bit = self.short(driven, seen);
        if bit.may_start() || !self.node.sample_quietly(seen) {
            return None;
        }
        // The segment is asked for the proof alone: what the bit brought has it as it is behind the bit.
        let _segment = self.node.segment();
        self.bits = bits;
        self.look_on();
        Some(bit)
    }

    /// How many bits it came past.
    pub fn bits(&self) -> u32
        ensures { result ≡ self.now.bits }
    {
        self.bits
    }

    /// Goes on past the next bits of which nothing is told, as far as each can be passed in short. There may be more of
    /// them.
    pub fn pass_silent(&mut self)
        ensures { PassesSilently self.old self.new }
    {
        while self.pass().is_some() {
            let count = self.rest_for(u32::MAX);
            if count > 0 {
                self.rest(count);
            }
        }
    }

    /// Looks at the next entry in place of the one that was looked at.
    #[inline(always)]
    pub(crate) fn look_on(&mut self)
        ensures { IsTakenFrom self.old self.new self.old.ahead }
    {
        if let Some((driven, seen)) = self.entries.next_bit() {
            put_bit(&mut self.ahead, driven, seen);
        } else {
            self.ahead = self.entries.next();
        }
    }

    /// The levels of a bit that is the entry that comes next.
    pub(crate) fn levels_ahead(&self) -> Option<(Level, Level)>
        ensures { IfSome result (λ p. self.now.ahead ≡ Some (Bit (p.0) (p.1))) }
    {
        match &self.ahead {
            Some(Entry::Bit(driven, seen)) => Some((*driven, *seen)),
            _ => None,
        }
    }

    /// What the node shows of a bit with these levels. Where it is inlined, what isn't asked of it isn't looked for.
    #[inline(always)]
    pub(crate) fn short(&self, driven: Level, seen: Level) -> ShortBit
        ensures { LooksAt self.now.node driven seen result }
    {
        ShortBit {
            driven,
            seen,
            phase: self.node.phase(),
            segment: self.node.segment(),
            transmits: self.node.is_transmitter(),
            counters: self.node.counters(),
            flag: self.node.flag(),
        }
    }
}

/// Puts a bit with these levels in the place of an entry. Where a bit stands there, its levels alone are written.
#[inline(always)]
fn put_bit(ahead: &mut Option<Entry>, driven: Level, seen: Level)
    ensures { ahead.new ≡ Some (Bit driven seen) }
{
    if let Some(entry) = ahead {
        if let Entry::Bit(old_driven, old_seen) = entry {
            *old_driven = driven;
            *old_seen = seen;
            return;
        }
    }
    put_new_bit(ahead, driven, seen);
}

/// Puts a new one there.
#[inline(never)]
fn put_new_bit(ahead: &mut Option<Entry>, driven: Level, seen: Level)
    ensures { ahead.new ≡ Some (Bit driven seen) }
{
    *ahead = Some(Entry::Bit(driven, seen));
}
