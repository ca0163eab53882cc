//! The driver's ledger of one activation.

use super::driver_end::DriverEnd;
use super::link_id::LinkId;
use super::lost_window::LostWindow;
use super::release_fault::ReleaseFault;
use arrayvec::ArrayVec;
use can_frame::{BufferView, Message};
use sja_journal::{Down, ITEMS_DOWN, Up};

/// The driver's account of one activation: the messages that it got and didn't release, and whether it got bus-off
/// (SJA1000 data sheet, 6.4.14, receive buffer: the window shows the first message of the FIFO).
///
/// A look first takes in all that the link shows, until 22 messages are held or bus-off is known. Once bus-off is known
/// there is no window, and what was not released is unread. Each call that takes an end has the condition that it is of
/// the ledger's node.
#[derive(Debug, Drop)]
pub struct DriverLedger {
    pub(crate) id: LinkId,
    pub(crate) held: ArrayVec<Message, ITEMS_DOWN>,
    pub(crate) off: bool,
}

impl DriverLedger {
    ghost use Rattle.std.specs.Prelude.{◌≡◌, ◌≤◌, ◌+◌, ℕ, List, [], length, true, false, Some};
    ghost use Rattle.std.specs.Prelude.{Err, OnOk, OnErr, IfOk, IfSome, IfNone, slice_get, ⊤};
    ghost use Rattle.std.specs.Borrow.{sem};
    ghost use mathlib.Core.Option.{none};
    ghost use denote.Follow.{follows_so};
    ghost use Rattle.sja_link.specs.contracts.driver_ledger.DriverLedger.{the_row};
    ghost use Rattle.sja_link.specs.declared.release_fault.ReleaseFault.TheVariants.{Stopped as FaultStopped};
    ghost use Rattle.sja_link.specs.declared.release_fault.ReleaseFault.TheVariants.{Empty, Busy};
    ghost use Rattle.sja_journal.specs.Lists.{OthersStand, on, is_on, same_on};
    ghost use Rattle.sja_link.specs.DriverLedgers.{link_of, activation_of, held_by, knows_bus_off};
    ghost use Rattle.sja_link.specs.Looking.{Pulls, IsTaken, Releases, Refuses, TriesRelease, one_if};
    ghost use Rattle.sja_link.specs.Showing.{Shows, window_in, seen_of};

    /// The ledger of an activation that begins: nothing was got.
    pub fn new(id: LinkId) -> DriverLedger
        ensures id { link_of result ≡ id }
        ensures held { held_by result ≡ [] }
        ensures on { knows_bus_off result ≡ false }
    {
        DriverLedger {
            id,
            held: ArrayVec::new(),
            off: false,
        }
    }

    /// Which link it is of.
    pub fn id(&self) -> LinkId
        ensures { result ≡ link_of self.now }
    {
        self.id
    }

    /// Takes in all that the link shows, and says whether the window is there.
    ///
    /// Error: [`LostWindow`] where bus-off is known.
    pub fn look<E: DriverEnd>(&mut self, end: &mut E) -> Result<(), LostWindow>
        requires { E.node end.old ≡ (link_of self.old).node }
        ensures id { link_of self.new ≡ link_of self.old }
        ensures same { E.same end.old end.new }
        ensures others { OthersStand E.stands (activation_of self.old) end.old end.new }
        ensures got { Pulls (on E.stands (activation_of self.old)) end.old end.new (held_by self.old) (held_by self.new)
            (knows_bus_off self.old) (knows_bus_off self.new) }
        ensures all { IsTaken (is_on E.dry (activation_of self.old)) end.new (knows_bus_off self.new)
            (held_by self.new) }
        ensures on { OnOk result (knows_bus_off self.new ≡ false) }
        ensures stopped { OnErr result (knows_bus_off self.new ≡ true) }
    {
        self.pull(end);
        self.shown()
    }

    /// Takes in all that the link shows, and shows the first message that was got and not released, or none. A driver
    /// calls [`look`](DriverLedger::look) and [`first`](DriverLedger::first); tests alone call both at once.
    ///
    /// Error: [`LostWindow`] where bus-off is known.
    pub fn window<E: DriverEnd>(&mut self, end: &mut E) -> Result<Option<&Message>, LostWindow>
        requires { E.node end.old ≡ (link_of self.old).node }
        ensures same { E.same end.old end.new }
        ensures others { OthersStand E.stands (activation_of self.old) end.old end.new }
        ensures* after { sem 𝓛 (follows_so the_row the_row self.entry.ghost_name none (λ _ _. ⊤) (λ n.
            (link_of n ≡ link_of self.old)
            × Pulls (on E.stands (activation_of self.old)) end.old end.new (held_by self.old) (held_by n)
            (knows_bus_off self.old) (knows_bus_off n)
            × IsTaken (is_on E.dry (activation_of self.old)) end.new (knows_bus_off n) (held_by n)
            × Shows (knows_bus_off n) (held_by n) (window_in result))) }
    {
        match self.look(end) {
            Ok(()) => Ok(self.first()),
            Err(fault) => Err(fault),
        }
    }

    /// The first message that was got and not released, or none. It takes in nothing.
    pub fn first(&self) -> Option<&Message>
        ensures some { IfSome result (λ m. slice_get (held_by self.now) 0 ≡ Some m.now) }
        ensures none { IfNone result (held_by self.now ≡ []) }
    {
        self.held.as_slice().first()
    }

    /// Takes in all that the link shows, and releases the first message that was got and not released: its credit is
    /// given. The answer is its length, 3 to 13.
    ///
    /// Errors, the first that holds: [`ReleaseFault::Stopped`] where bus-off is known; [`ReleaseFault::Empty`] where no
    /// such message is there; [`ReleaseFault::Busy`] where the end gave the credit back. Nothing is released then.
    pub fn release<E: DriverEnd>(&mut self, end: &mut E) -> Result<u8, ReleaseFault>
        requires { E.node end.old ≡ (link_of self.old).node }
        ensures id { link_of self.new ≡ link_of self.old }
        ensures same { E.same end.old end.new }
        ensures others { OthersStand E.stands (activation_of self.old) end.old end.new }
        ensures ok { IfOk result (λ n. (m : List ℕ) × (length m ≡ n)
            × Releases (same_on E.same E.stands (activation_of self.old)) (on E.stands (activation_of self.old))
            (is_on E.dry (activation_of self.old)) end.old end.new (held_by self.old) (held_by self.new)
            (knows_bus_off self.old) (knows_bus_off self.new) m) }
        ensures on { OnOk result (knows_bus_off self.new ≡ false) }
        ensures err { OnErr result (Pulls (on E.stands (activation_of self.old)) end.old end.new (held_by self.old)
            (held_by self.new) (knows_bus_off self.old) (knows_bus_off self.new)) }
        ensures stopped { result ≡ Err FaultStopped → knows_bus_off self.new ≡ true }
        ensures empty { result ≡ Err Empty → (knows_bus_off self.new ≡ false) × (held_by self.new ≡ [])
            × E.dry end.new (activation_of self.old) }
        ensures busy { result ≡ Err Busy → (knows_bus_off self.new ≡ false)
            × Refuses (same_on E.same E.stands (activation_of self.old)) (on E.stands (activation_of self.old))
            (is_on E.dry (activation_of self.old)) (is_on E.full (activation_of self.old)) end.old
            (knows_bus_off self.new) (held_by self.new) }
    {
        let message = self.release_message(end)?;
        Ok(message.len() as u8)
    }

    /// The same as [`release`](DriverLedger::release), but it hands out the message that it released.
    ///
    /// Errors: those of [`release`](DriverLedger::release).
    pub fn release_message<E: DriverEnd>(&mut self, end: &mut E) -> Result<Message, ReleaseFault>
        requires { E.node end.old ≡ (link_of self.old).node }
        ensures id { link_of self.new ≡ link_of self.old }
        ensures same { E.same end.old end.new }
        ensures others { OthersStand E.stands (activation_of self.old) end.old end.new }
        ensures tried { TriesRelease (same_on E.same E.stands (activation_of self.old))
            (on E.stands (activation_of self.old)) (is_on E.dry (activation_of self.old))
            (is_on E.full (activation_of self.old)) end.old end.new
            (held_by self.old) (held_by self.new) (knows_bus_off self.old) (knows_bus_off self.new) result }
    {
        if self.look(end).is_err() {
            return Err(ReleaseFault::Stopped);
        }
        let Some(first) = self.held.as_slice().first() else {
            return Err(ReleaseFault::Empty);
        };
        let credit = Up::Credit(first.len() as u8);
        match end.give(self.id.activation, credit) {
            Ok(()) => Ok(self.held.remove(0)),
            Err(_) => Err(ReleaseFault::Busy),
        }
    }

    /// What a read of the controller's registers sees: the first message that was got and not released, and how many
    /// there are; none and 0 once bus-off is known. It takes in nothing.
    pub fn seen(&self) -> BufferView
        ensures { result ≡ seen_of (knows_bus_off self.now) (held_by self.now) }
    {
        if self.off {
            return BufferView {
                first: None,
                count: 0,
            };
        }
        let first = match self.first() {
            Some(message) => Some(message.copy()),
            None => None,
        };
        BufferView {
            first,
            count: self.held.len() as u8,
        }
    }

    /// The messages that were got and not released, in order. It takes in nothing.
    pub fn unread(&self) -> &[Message]
        ensures { result.now ≡ held_by self.now }
    {
        self.held.as_slice()
    }

    /// Says whether the window is there.
    ///
    /// Error: [`LostWindow`] where bus-off is known.
    fn shown(&self) -> Result<(), LostWindow>
        ensures on { OnOk result (knows_bus_off self.now ≡ false) }
        ensures stopped { OnErr result (knows_bus_off self.now ≡ true) }
    {
        if self.off { Err(LostWindow) } else { Ok(()) }
    }

    /// Takes in all that the link shows, until 22 messages are held or bus-off is known.
    fn pull<E: DriverEnd>(&mut self, end: &mut E)
        requires { E.node end.old ≡ (link_of self.old).node }
        ensures all { IsTaken (is_on E.dry (activation_of self.old)) end.new (knows_bus_off self.new)
            (held_by self.new) }
        ensures got { Pulls (on E.stands (activation_of self.old)) end.old end.new (held_by self.old) (held_by self.new)
            (knows_bus_off self.old) (knows_bus_off self.new) }
        ensures same { E.same end.old end.new }
        ensures others { OthersStand E.stands (activation_of self.old) end.old end.new }
        ensures id { link_of self.new ≡ link_of self.old }
    {
        loop {
            if !self.pull_one(end) {
                return;
            }
        }
    }

    /// Takes in one item, if one is shown and there is room for it.
    fn pull_one<E: DriverEnd>(&mut self, end: &mut E) -> bool
        requires { E.node end.old ≡ (link_of self.old).node }
        ensures id { link_of self.new ≡ link_of self.old }
        ensures same { E.same end.old end.new }
        ensures others { OthersStand E.stands (activation_of self.old) end.old end.new }
        ensures got { Pulls (on E.stands (activation_of self.old)) end.old end.new (held_by self.old) (held_by self.new)
            (knows_bus_off self.old) (knows_bus_off self.new) }
        ensures few { result ≡ true → length (held_by self.new) ≤ 22 }
        ensures more { result ≡ true → length (held_by self.new) + one_if (knows_bus_off self.new)
            ≡ length (held_by self.old) + one_if (knows_bus_off self.old) + 1 }
        ensures all { result ≡ false →
            IsTaken (is_on E.dry (activation_of self.old)) end.new (knows_bus_off self.new) (held_by self.new) }
    {
        if self.off || self.held.is_full() {
            return false;
        }
        match end.get(self.id.activation) {
            Some(Down::Message(message)) => {
                self.held.push(message);
                true
            }
            Some(Down::Off) => {
                self.off = true;
                true
            }
            None => false,
        }
    }
}
