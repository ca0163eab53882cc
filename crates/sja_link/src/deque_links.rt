//! The links of a node in one thread.

ghost use Rattle.std.specs.Prelude.{◌≡◌, ◌≢◌, ◌<◌, ◌≤◌, ◌⊎◌, ◌+◌, ◌^◌, ◌++◌, ◌∷◌, ℕ, [], suc, length, drop, IfOk};
ghost use Rattle.std.specs.Prelude.{IfSome, IfNone, OnOk, OnErr, true, false};
ghost use Rattle.sja_link.specs.Deques.{among, left_on, nothing_lies, up_on, IsAside, KeepsOlder};
ghost use Rattle.sja_link.specs.Inside.Queues.{IsTurned, IsMoved};
ghost use Rattle.sja_link.specs.NewLinks.{new_links};

use super::bus_end::BusEnd;
use super::deque_link::DequeLink;
use super::driver_end::DriverEnd;
use super::older_down::OlderDown;
use can_frame::OutOfMemory;
use sja_journal::{ACTIVATIONS, BoundedHistory, Down, Endless, ITEMS_DOWN, Up};
use std::alloc::Global;
use std::collections::VecDeque;
use std::marker::Model;
use std::mem::swap;

/// The links of a node in one thread: both ends of each in one value (this project's own rule).
///
/// 64 links have two queues each, or all where there are fewer, at first those of the first activations: so all links
/// have in a run of a plan. Where there are more, the next one takes the queues of the first that has them, once
/// nothing lies upward there. What lies downward there is left: no call gets it any more, and
/// [`older`](DequeLinks::older) shows it. One link is at hand, beside the others: at first the first, then that to
/// which a call turned last. A call turns to its link where that has queues, but no take where nothing lies upward.
#[derive(Debug, Drop)]
pub struct DequeLinks {
    at: u64,
    here: DequeLink,
    node: u8,
    first: u64,
    others: VecDeque<DequeLink>,
    older: BoundedHistory<OlderDown>,
    starts: u64,
}

impl Model for DequeLinks {
    ghost use Rattle.std.specs.VecDeque.{deque_capacity};
    ghost use Rattle.sja_link.specs.Deques.{Deques};
    ghost use Rattle.sja_link.specs.Inside.Queues.{AreKept};

    ghost Value = { Deques };

    ghost view = { λ s. record {
      node = s.node;
      first = s.first;
      at = s.at;
      here = s.here;
      others = s.others.items;
      older = s.older.items;
      starts = s.starts;
    } };

    ghost invariant = { λ s. AreKept s.first s.at s.others.items s.older.items s.starts s.older.room
        (deque_capacity s.others) };
}

impl DequeLinks {
    /// The links of a node for so many activations, none of which has begun, with nothing on them. All their room is
    /// made here.
    ///
    /// Error: [`OutOfMemory`] where memory was refused.
    pub fn new(alloc: Global, node: u8, starts: u64) -> Result<DequeLinks, OutOfMemory>
        requires { starts ≤ 2 ^ 58 }
        ensures { IfOk result (λ s. s ≡ new_links node starts) }
    {
        let many = starts.min(ACTIVATIONS);
        let mut others = VecDeque::with_capacity(alloc, many as usize)?;
        for _ in 0..many {
            others.push_back_reserved(DequeLink::new(alloc)?);
        }
        let here = DequeLink::new(alloc)?;
        let older = BoundedHistory::new(alloc, ITEMS_DOWN * (starts - many) as usize)?;
        Ok(DequeLinks {
            at: starts.min(1),
            here,
            node,
            first: 1,
            others,
            older,
            starts,
        })
    }

    /// The first activation whose link has queues, counted from 1.
    pub fn first(&self) -> u64
        ensures first { result ≡ self.now.first }
        ensures few { result + length self.now.others ≤ 2 ^ 58 + 1 }
    {
        self.first
    }

    /// The activation whose link is at hand; 0 where there are no links.
    pub fn at(&self) -> u64
        ensures { result ≡ self.now.at }
    {
        self.at
    }

    /// The link at hand.
    pub fn here(&self) -> &DequeLink
        ensures { result.now ≡ self.now.here }
    {
        &self.here
    }

    /// The links that have queues, from that of the first such activation on, but for the one at hand: in its place
    /// nothing lies.
    pub fn others(&self) -> &VecDeque<DequeLink>
        ensures others { result.now.items ≡ self.now.others }
        ensures place { among self.now.first self.now.others self.now.at ≡ nothing_lies }
    {
        &self.others
    }

    /// What was left downward on the links that have no queues any more, oldest first.
    ///
    /// Error: [`Endless`] where there are so many links that more items than [`HISTORY_LIMIT`](super::HISTORY_LIMIT)
    /// may be left there:
    /// 22 on each but those that have queues.
    pub fn older(&self) -> Result<&[OlderDown], Endless>
        ensures older { IfOk result (λ s. s.now ≡ self.now.older) }
        ensures none_left { IfOk result (λ s. (a : ℕ) → self.now.first ≤ a → left_on s.now a ≡ []) }
        ensures kept { OnOk result (KeepsOlder self.now) }
        ensures endless { OnErr result (KeepsOlder self.now → ⊥) }
    {
        self.older.whole()
    }

    /// Turns to the link of an activation, if it has queues, and says whether it has: it is at hand then.
    #[inline(never)]
    fn turn_to(&mut self, activation: u64) -> bool
        ensures turned { result ≡ true → IsTurned self.old self.new activation }
        ensures kept { result ≡ false → self.new ≡ self.old }
        ensures aside { result ≡ false → IsAside self.old activation }
    {
        if activation < self.first {
            return false;
        }
        let place = activation - self.first;
        if place >= self.others.len() as u64 {
            return false;
        }
        let was = (self.at - self.first) as usize;
        swap(&mut self.here, &mut self.others[was]);
        swap(&mut self.here, &mut self.others[place as usize]);
        self.at = activation;
        true
    }

    /// Turns to the link of an activation that isn't at hand, if something lies upward there, and says whether it does:
    /// it is at hand then. Else nothing turns.
    #[inline(always)]
    fn turn_to_given(&mut self, activation: u64) -> bool
        requires { self.old.at ≢ activation }
        ensures turned { result ≡ true → IsTurned self.old self.new activation }
        ensures kept { result ≡ false → self.new ≡ self.old }
        ensures none { result ≡ false → up_on self.old activation ≡ [] }
    {
        if self.shows_nothing(activation) {
            return false;
        }
        self.turn_to(activation)
    }

    /// Whether nothing lies upward on a link that isn't at hand.
    fn shows_nothing(&self, activation: u64) -> bool
        requires { self.now.at ≢ activation }
        ensures { result ≡ true → up_on self.now activation ≡ [] }
    {
        if activation < self.first {
            return true;
        }
        let place = activation - self.first;
        if place >= self.others.len() as u64 {
            return true;
        }
        self.others[place as usize].is_taken()
    }

    /// Whether the link of an activation is the one after those that have queues, and may take those of the first.
    fn is_next(&self, activation: u64) -> bool
        ensures next { result ≡ true → (self.now.first + length self.now.others ≡ activation)
            × ((activation ≤ self.now.starts) × (up_on self.now self.now.first ≡ [])) }
        ensures no { result ≡ false → (self.now.starts < activation)
            ⊎ ((self.now.first + length self.now.others ≢ activation) ⊎ (up_on self.now self.now.first ≢ [])) }
    {
        activation == self.first + self.others.len() as u64
            && activation <= self.starts
            && self.is_first_taken()
    }

    /// Whether nothing lies upward on the first link that has queues.
    fn is_first_taken(&self) -> bool
        ensures yes { result ≡ true → up_on self.now self.now.first ≡ [] }
        ensures no { result ≡ false → up_on self.now self.now.first ≢ [] }
    {
        if self.at == self.first {
            return self.here.is_taken();
        }
        match self.others.front() {
            Some(first) => first.is_taken(),
            None => true,
        }
    }

    /// The next link takes the queues of the first, where nothing lies upward, and is at hand. What lies downward there
    /// is left.
    #[inline(never)]
    fn move_on(&mut self)
        requires some { 0 < length self.old.others }
        requires there { self.old.first + length self.old.others ≤ self.old.starts }
        requires taken { up_on self.old self.old.first ≡ [] }
        ensures { IsMoved self.old self.new }
    {
        let was = (self.at - self.first) as usize;
        swap(&mut self.here, &mut self.others[was]);
        let Some(mut link) = self.others.pop_front() else {
            return;
        };
        while let Some(item) = link.get() {
            self.older.push(OlderDown {
                activation: self.first,
                item,
            });
        }
        self.others.push_back_reserved(link);
        self.at = self.first + self.others.len() as u64;
        self.first += 1;
    }
}

impl BusEnd for DequeLinks {
    ghost use Rattle.std.specs.Prelude.{refl};
    ghost use Rattle.std.proofs.Common.{◌∙◌};
    ghost use Rattle.sja_link.specs.Deques.{Lies, IsFullDown, AreAlike, up_on};

    ghost node = { λ s. s.node };

    ghost links = { λ s. s.starts };

    ghost stands = { Lies };

    ghost same = { AreAlike };

    ghost full = { IsFullDown };

    ghost dry = { λ s a. up_on s a ≡ [] };

    fn node(&self) -> u8 {
        self.node
    }

    fn links(&self) -> u64 {
        self.starts
    }

    #[inline(always)]
    fn put(&mut self, activation: u64, item: Down) -> Result<(), Down> {
        if activation != self.at && !self.turn_to(activation) {
            return Err(item);
        }
        self.here.put(item)
    }

    #[inline(always)]
    fn take(&mut self, activation: u64) -> Option<Up> {
        if activation != self.at && !self.turn_to_given(activation) {
            return None;
        }
        self.here.take()
    }

    ghost same_refl = { λ e. (refl, refl) };

    ghost same_trans = { λ a b c p q. (q.0 ∙ p.0, q.1 ∙ p.1) };

    ghost same_node = { λ a b p. p.0 };

    ghost same_links = { λ a b p. p.1 };
}

impl DriverEnd for DequeLinks {
    ghost use Rattle.std.specs.Prelude.{refl};
    ghost use Rattle.std.proofs.Common.{◌∙◌};
    ghost use Rattle.sja_link.specs.Deques.{Lies, IsFullUp, IsDryDown, AreAlike};

    ghost node = { λ s. s.node };

    ghost stands = { Lies };

    ghost same = { AreAlike };

    ghost full = { IsFullUp };

    ghost dry = { IsDryDown };

    fn node(&self) -> u8 {
        self.node
    }

    #[inline(always)]
    fn get(&mut self, activation: u64) -> Option<Down> {
        if activation != self.at && !self.turn_to(activation) {
            return None;
        }
        self.here.get()
    }

    #[inline(always)]
    fn give(&mut self, activation: u64, item: Up) -> Result<(), Up> {
        if activation != self.at && !self.turn_to(activation) {
            if !self.is_next(activation) {
                return Err(item);
            }
            self.move_on();
        }
        self.here.give(item)
    }

    ghost same_refl = { λ e. (refl, refl) };

    ghost same_trans = { λ a b c p q. (q.0 ∙ p.0, q.1 ∙ p.1) };

    ghost same_node = { λ a b p. p.0 };
}
