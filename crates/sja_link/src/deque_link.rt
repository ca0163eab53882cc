//! The link of one activation in one thread.

ghost use Rattle.std.specs.Prelude.{◌≡◌, ◌≢◌, ◌++◌, ◌∷◌, [], length, true, false, IfOk, IfErr, IfSome, IfNone, OnOk};
ghost use Rattle.std.specs.Prelude.{OnErr};
ghost use Rattle.sja_link.specs.Deques.{nothing_lies};

use can_frame::OutOfMemory;
use sja_journal::{Down, ITEMS_DOWN, ITEMS_UP, Up};
use std::alloc::Global;
use std::collections::VecDeque;
use std::marker::Model;

/// The link of one activation in one thread: both ends in one value, of two queues (this project's own rule). Contracts
/// see it as what lies there.
#[derive(Debug, Drop)]
pub struct DequeLink {
    down: VecDeque<Down>,
    up: VecDeque<Up>,
}

impl Model for DequeLink {
    ghost use Rattle.std.specs.VecDeque.{deque_capacity};
    ghost use Rattle.sja_link.specs.Deques.{Queues};
    ghost use Rattle.sja_link.specs.Inside.Queues.{AreQueues};

    ghost Value = { Queues };

    ghost view = { λ s. record { down = s.down.items; up = s.up.items } };

    ghost invariant = { λ s. AreQueues s.down.items (deque_capacity s.down) s.up.items (deque_capacity s.up) };
}

impl DequeLink {
    /// A link with nothing on it. All its room is made here.
    ///
    /// Error: [`OutOfMemory`] where memory was refused.
    pub(crate) fn new(alloc: Global) -> Result<DequeLink, OutOfMemory>
        ensures { IfOk result (λ s. s ≡ nothing_lies) }
    {
        let down = VecDeque::with_capacity(alloc, ITEMS_DOWN)?;
        let up = VecDeque::with_capacity(alloc, ITEMS_UP)?;
        Ok(DequeLink { down, up })
    }

    /// What lies downward, oldest first.
    pub fn down(&self) -> &VecDeque<Down>
        ensures { result.now.items ≡ self.now.down }
    {
        &self.down
    }

    /// Whether nothing lies upward.
    pub(crate) fn is_taken(&self) -> bool
        ensures yes { result ≡ true → self.now.up ≡ [] }
        ensures no { result ≡ false → self.now.up ≢ [] }
    {
        self.up.is_empty()
    }

    /// Puts an item, or gives it back where 22 lie there.
    pub(crate) fn put(&mut self, item: Down) -> Result<(), Down>
        ensures put { OnOk result (self.new ≡ record self.old { down = self.old.down ++ item ∷ [] }) }
        ensures back { IfErr result (λ x. x ≡ item) }
        ensures kept { OnErr result (self.new ≡ self.old) }
        ensures full { OnErr result (length self.old.down ≡ 22) }
    {
        if self.down.len() >= ITEMS_DOWN {
            return Err(item);
        }
        self.down.push_back_reserved(item);
        Ok(())
    }

    /// Takes the oldest item that lies upward.
    pub(crate) fn take(&mut self) -> Option<Up>
        ensures item { IfSome result (λ x. self.old.up ≡ x ∷ self.new.up) }
        ensures down { self.new.down ≡ self.old.down }
        ensures kept { IfNone result (self.new ≡ self.old) }
        ensures none { IfNone result (self.old.up ≡ []) }
    {
        self.up.pop_front()
    }

    /// Gets the oldest item that lies downward.
    pub(crate) fn get(&mut self) -> Option<Down>
        ensures item { IfSome result (λ x. self.old.down ≡ x ∷ self.new.down) }
        ensures up { self.new.up ≡ self.old.up }
        ensures kept { IfNone result (self.new ≡ self.old) }
        ensures none { IfNone result (self.old.down ≡ []) }
    {
        self.down.pop_front()
    }

    /// Gives an item, or it comes back where 24 lie there.
    #[inline(always)]
    pub(crate) fn give(&mut self, item: Up) -> Result<(), Up>
        ensures given { OnOk result (self.new ≡ record self.old { up = self.old.up ++ item ∷ [] }) }
        ensures back { IfErr result (λ x. x ≡ item) }
        ensures kept { OnErr result (self.new ≡ self.old) }
        ensures full { OnErr result (length self.old.up ≡ 24) }
    {
        if self.up.len() >= ITEMS_UP {
            return Err(item);
        }
        self.up.push_back_reserved(item);
        Ok(())
    }
}
