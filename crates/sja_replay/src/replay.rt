//! [`Replay`]: a journal gone over bit by bit.

ghost use Rattle.std.specs.Prelude.{◌≤◌, ◌≡◌, ◌≢◌, true, false, []};

use super::bit_event::BitEvent;
use super::view::View;
use can_levels::Level;
use can_node::Node;
use sja_journal::{Entries, Entry, Journal, RECEIVE_FIFO};
use std::mem;

/// A journal gone over bit by bit, with a node that does what the journal says.
#[derive(Debug, Drop)]
pub struct Replay<'a> {
    pub(crate) node: Node,
    pub(crate) entries: Entries<'a>,
    /// The entry that was looked at.
    pub(crate) ahead: Option<Entry>,
    /// How many bits came.
    pub(crate) bits: u32,
    /// Whether the activation begun last went bus-off.
    pub(crate) off: bool,
    /// Whether the last entry is an abort.
    pub(crate) aborted: bool,
    /// The bytes that are free in the receive buffer.
    pub(crate) free: u8,
    ghost fits: { free ≤ 64 },
}

impl<'a> Replay<'a> {
    ghost use Rattle.std.specs.Prelude.{◌≡◌, ◌∷◌, [], List, None, IfSome, IfNone};
    ghost use Rattle.sja_journal.specs.declared.entry.Entry.{Entry as Item};
    ghost use Rattle.sja_replay.specs.Happened.{Happened};
    ghost use Rattle.sja_replay.specs.Replaying.{left_of, IsAt, GoesOn, TellsBit};
    ghost use Rattle.sja_replay.specs.Inside.Walking.{IsTakenFrom, BringsNext};

    /// Before the first entry of a journal.
    pub fn of(journal: &'a Journal) -> Replay<'a>
        ensures at { IsAt result [] }
        ensures left { left_of result ≡ journal.now.entries }
    {
        let mut entries = journal.entries();
        let ahead = entries.next();
        Replay {
            node: Node::new(),
            entries,
            ahead,
            bits: 0,
            off: false,
            aborted: false,
            free: RECEIVE_FIFO,
        }
    }

    /// Goes on past the next bit and the entries that it brought, and tells what it brought.
    ///
    /// Nothing where no bit is left, or where an entry comes that can't come there: then the journal is none that a bus
    /// writes. No entry is left then, and each further call answers nothing.
    pub fn next(&mut self) -> Option<BitEvent>
        ensures some { IfSome result (λ h. (before : List Item) → IsAt self.old before
            → GoesOn self.old self.new before (h ∷ [])) }
        ensures bit { IfSome result (λ h. (before : List Item) → IsAt self.old before
            → TellsBit self.old self.new before h) }
        ensures none { IfNone result ((before : List Item) → IsAt self.old before
            → Happened before (left_of self.old) []) }
        ensures ends { IfNone result (left_of self.new ≡ []) }
        ensures over { left_of self.old ≡ [] → result ≡ None }
    {
        while let Some(entry) = self.take() {
            if let Entry::Bit(driven, seen) = entry {
                return self.told_bit(driven, seen);
            }
            if !self.enter(entry) {
                return self.end();
            }
        }
        self.end()
    }

    /// Lets go of the entries that are left.
    fn end(&mut self) -> Option<BitEvent>
        ensures none { result ≡ None }
        ensures ends { left_of self.new ≡ [] }
    {
        self.ahead = None;
        spend(&mut self.entries);
        None
    }

    /// The next entry, and looks at the one after it.
    pub(crate) fn take(&mut self) -> Option<Entry>
        ensures { IsTakenFrom self.old self.new result }
    {
        let next = self.entries.next();
        mem::replace(&mut self.ahead, next)
    }

    /// A bit, with the entries that it brought. Nothing where they aren't those, or the node drives another level; no
    /// entry is left then.
    fn told_bit(&mut self, driven: Level, seen: Level) -> Option<BitEvent>
        ensures brings { BringsNext self.old self.new driven seen result }
        ensures ends { IfNone result (left_of self.new ≡ []) }
    {
        if !is_same(self.node.drive(), driven) {
            return self.end();
        }
        let before = View::of(&self.node);
        let bit = self.bits;
        let Some(bits) = bit.checked_add(1) else {
            return self.end();
        };
        self.bits = bits;
        let aborted = self.aborted;
        self.aborted = false;
        let events = self.node.sample(seen);
        let after = View::of(&self.node);
        let Ok(reception) = self.close(&events) else {
            return self.end();
        };
        Some(BitEvent {
            bit,
            driven,
            seen,
            aborted,
            before,
            events,
            after,
            reception,
        })
    }
}

/// Takes all entries that are left.
fn spend(entries: &mut Entries<'_>)
    ensures { entries.new ≡ [] }
{
    while entries.next().is_some() {}
}

/// Whether two levels are one.
pub(crate) fn is_same(level: Level, other: Level) -> bool
    ensures yes { result ≡ true → level ≡ other }
    ensures no { result ≡ false → level ≢ other }
{
    match level {
        Level::Dominant => other == Level::Dominant,
        Level::Recessive => other == Level::Recessive,
    }
}
