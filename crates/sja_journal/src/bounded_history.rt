//! [`BoundedHistory`]: a list of which the oldest items may be dropped.

ghost use Rattle.std.specs.Prelude.{◌≡◌, ◌<◌, ◌≤◌, ◌-◌, [], ◌∷◌, ◌++◌, length, replicate, true, false, None};
ghost use Rattle.std.specs.Prelude.{IfOk, OnOk, OnErr, IfSome};
ghost use Rattle.sja_journal.specs.BoundedHistories.{KeepsAll, IsLast};

use super::dropped::Dropped;
use super::endless::Endless;
use can_frame::OutOfMemory;
use std::alloc::Global;
use std::fmt::{self, Debug, Formatter};
use std::marker::Model;

/// A list that is made for at most so many items, 2^40, drops none (this project's own rule): as many as any caller
/// has a memory for.
pub const HISTORY_LIMIT: usize = 1_099_511_627_776;

/// How many items are kept at once by a list that is made for more, where its maker doesn't say how many (this
/// project's own rule).
const WINDOW: usize = 4_096;

/// A list that grows, of which the oldest items may be dropped (this project's own rule).
///
/// Made for at most [`HISTORY_LIMIT`] items, it keeps them all. Made for more, it has a memory for some thousand, and
/// where that is full it drops what lies there. Contracts see all its items, those dropped too, and how many it was
/// made for.
#[derive(Drop)]
pub struct BoundedHistory<T> {
    room: usize,
    pub(crate) items: Vec<T>,
    /// How many items are kept at once.
    pub(crate) window: usize,
    /// How many it was made for, less those that were dropped.
    end: usize,
    dropped: Dropped<T>,
}

impl<T> Model for BoundedHistory<T> {
    ghost use Rattle.std.specs.Prelude.{◌++◌, length, vec_capacity};
    ghost use Rattle.sja_journal.specs.BoundedHistories.{HistoryValue, history_code};

    ghost Value = { HistoryValue T };

    ghost coded = { history_code T.code };

    ghost use Rattle.sja_journal.specs.Inside.BoundedHistories.{AreBounded};

    ghost view = { λ l. record { items = l.dropped.items ++ l.items.items; room = l.room } };

    ghost invariant = { λ l. AreBounded (length l.items.items) (length l.dropped.items) l.window
        (vec_capacity l.items) l.end l.room };
}

impl<T> BoundedHistory<T> {
    /// An empty list for so many items. No other call takes memory.
    ///
    /// Error: [`OutOfMemory`] where memory was refused.
    pub fn new(alloc: Global, room: usize) -> Result<BoundedHistory<T>, OutOfMemory>
        ensures empty { IfOk result (λ l. l.items ≡ []) }
        ensures whole { IfOk result (λ l. l.room ≡ room) }
    {
        BoundedHistory::keeping(alloc, room, WINDOW)
    }

    /// The same, which keeps so many items at once where it is made for more than [`HISTORY_LIMIT`].
    ///
    /// Error: [`OutOfMemory`] where memory was refused.
    pub(crate) fn keeping(
        alloc: Global,
        room: usize,
        most: usize,
    ) -> Result<BoundedHistory<T>, OutOfMemory>
        requires { (0 < most) × (most ≤ 1099511627776) }
        ensures empty { IfOk result (λ l. l.items ≡ []) }
        ensures whole { IfOk result (λ l. l.room ≡ room) }
    {
        let window = if room <= HISTORY_LIMIT { room } else { most };
        let items = Vec::with_capacity(alloc, window)?;
        Ok(BoundedHistory {
            room,
            items,
            window,
            end: room,
            dropped: Dropped::new(),
        })
    }

    /// For how many items it was made.
    pub fn room(&self) -> usize
        ensures { result ≡ self.now.room }
    {
        self.room
    }

    /// How many items it has, those dropped too.
    pub fn len(&self) -> usize
        ensures { result ≡ length self.now.items }
    {
        self.room - self.free()
    }

    /// For how many more it was made.
    pub fn free(&self) -> usize
        ensures { result ≡ self.now.room - length self.now.items }
    {
        self.end - self.items.len()
    }

    /// Whether it has all the items that it was made for.
    #[inline(always)]
    pub fn is_full(&self) -> bool
        ensures full { result ≡ true → self.now.room ≤ length self.now.items }
        ensures free { result ≡ false → length self.now.items < self.now.room }
    {
        // A list that is open isn't full: the same comparison as that of the next push.
        !self.is_open() && self.items.len() >= self.end
    }

    /// Whether an item more drops none.
    #[inline(always)]
    pub fn is_open(&self) -> bool
        ensures { result ≡ true → length self.now.items < self.now.room }
    {
        self.items.len() < self.window
    }

    /// The last item, if it has any.
    pub fn last(&self) -> Option<&T>
        ensures none { result ≡ None → self.now.items ≡ [] }
        ensures last { IfSome result (λ x. IsLast self.now.items x.now) }
    {
        self.items.as_slice().last()
    }

    /// All its items, oldest first.
    ///
    /// Error: [`Endless`] where it was made for more than [`HISTORY_LIMIT`].
    pub fn whole(&self) -> Result<&[T], Endless>
        ensures items { IfOk result (λ s. s.now ≡ self.now.items) }
        ensures kept { OnOk result (KeepsAll self.now.room) }
        ensures endless { OnErr result (KeepsAll self.now.room → ⊥) }
    {
        if self.room > HISTORY_LIMIT {
            return Err(Endless);
        }
        Ok(self.as_slice())
    }

    /// All its items, oldest first, of a list that drops none.
    pub fn as_slice(&self) -> &[T]
        requires kept { KeepsAll self.now.room }
        ensures { result.now ≡ self.now.items }
    {
        self.items.as_slice()
    }
}

impl<T: Drop> BoundedHistory<T> {
    /// Adds an item, where it isn't full. Where the memory is, those that are kept are dropped first.
    #[inline(always)]
    pub fn push(&mut self, item: T)
        requires free { length self.old.items < self.old.room }
        ensures items { self.new.items ≡ self.old.items ++ item ∷ [] }
        ensures room { self.new.room ≡ self.old.room }
    {
        if self.items.len() >= self.window {
            self.end -= self.items.len();
            self.window = self.window.min(self.end);
            self.dropped.take(&mut self.items);
        }
        self.items.push_reserved(item);
    }
}

impl<T: Copy> BoundedHistory<T> {
    /// Adds so many copies of an item, where as many are free.
    pub fn push_copies(&mut self, count: usize, item: T)
        requires free { count ≤ self.old.room - length self.old.items }
        ensures items { self.new.items ≡ self.old.items ++ replicate count item }
        ensures room { self.new.room ≡ self.old.room }
    {
        let used = self.items.len();
        if count > self.window - used {
            self.push_many(count, item);
            return;
        }
        // The memory is reserved.
        let _ = self.items.resize(used + count, item);
    }

    /// The same, where the memory may come to its end among them.
    #[inline(never)]
    fn push_many(&mut self, count: usize, item: T)
        requires free { count ≤ self.old.room - length self.old.items }
        ensures items { self.new.items ≡ self.old.items ++ replicate count item }
        ensures room { self.new.room ≡ self.old.room }
    {
        let mut left = count;
        while left > 0 {
            left -= self.push_some(left, item);
        }
    }

    /// Adds at least one copy of an item and at most so many, and says how many: as many as forget nothing, or one.
    fn push_some(&mut self, most: usize, item: T) -> usize
        requires some { 0 < most }
        requires free { most ≤ self.old.room - length self.old.items }
        ensures some { 0 < result }
        ensures most { result ≤ most }
        ensures items { self.new.items ≡ self.old.items ++ replicate result item }
        ensures room { self.new.room ≡ self.old.room }
    {
        let used = self.items.len();
        if used >= self.window {
            self.push(item);
            return 1;
        }
        let count = most.min(self.window - used);
        // The memory is reserved.
        let _ = self.items.resize(used + count, item);
        count
    }
}

impl<T: Debug> Debug for BoundedHistory<T> {
    /// Writes the items that are kept.
    fn fmt<W: fmt::Write>(&self, f: &mut Formatter<W>) -> fmt::Result {
        Debug::fmt(&self.items, f)
    }
}
