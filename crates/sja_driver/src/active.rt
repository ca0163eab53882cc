//! A driver out of reset: its stop, its look, its window and its release.

ghost use Rattle.std.specs.Prelude.{◌≡◌, ℕ, List, [], length, true, false, is_err, Err, OnOk, OnErr, IfOk};
ghost use Rattle.sja_link.specs.declared.release_fault.ReleaseFault.TheVariants.{Stopped as FaultStopped};
ghost use Rattle.sja_link.specs.declared.release_fault.ReleaseFault.TheVariants.{Empty, Busy as ReleaseBusy};
ghost use Rattle.sja_link.specs.DriverLedgers.{link_of, held_by, knows_bus_off};
ghost use Rattle.sja_journal.specs.Lists.{on, is_on, same_on, OthersStand};
ghost use Rattle.sja_link.specs.Looking.{Pulls, IsTaken, Releases, Refuses, TriesRelease};
ghost use Rattle.sja_driver.specs.Calls.{Ends, TakesIn};
ghost use Rattle.sja_driver.specs.Drivers.{node_in, started_in, link_in, activation_in, held_in, off_in};

use super::driver::Driver;
use super::reset::Reset;
use can_frame::Message;
use sja_journal::Up;
use sja_link::{DriverEnd, DriverLedger, LinkId, LostWindow, ReleaseFault};
use sja_regs::Port;

/// The state of a driver whose activation goes on: the ledger of its messages.
#[derive(Debug, Drop)]
pub struct Active {
    pub(crate) ledger: DriverLedger,
}

impl Driver<Active> {
    ghost use Rattle.std.specs.Prelude.{⊤};
    ghost use Rattle.std.specs.Borrow.{sem};
    ghost use mathlib.Core.Option.{none};
    ghost use denote.Follow.{follows_so};
    ghost use Rattle.sja_driver.specs.contracts.driver.Driver.{the_row};
    ghost use Rattle.sja_driver.specs.contracts.active.Active.{the_row as active_row};
    ghost use Rattle.sja_link.specs.Showing.{Shows, window_in};

    /// The present activation, from 1 on.
    pub fn activation(&self) -> u64
        ensures { result ≡ activation_in self.now }
    {
        self.state.ledger.id().activation
    }

    /// The link of the present activation. Each call with an end asks that it is of this node.
    pub fn link(&self) -> LinkId
        ensures { result ≡ link_in self.now }
    {
        self.state.ledger.id()
    }

    /// The messages that were got and not released, in order. It takes in nothing.
    pub fn unread(&self) -> &[Message]
        ensures { result.now ≡ held_in self.now }
    {
        self.state.ledger.unread()
    }

    /// Ends the activation: the stop is given, and the port enters reset mode. What was got and not released stays
    /// unread. Tests alone call it: a step hands out the ledger too.
    ///
    /// Error: this state, where the end gave the stop back; nothing changed then.
    pub fn stop<E: DriverEnd>(
        self,
        end: &mut E,
        port: &mut Port,
    ) -> Result<Driver<Reset>, Driver<Active>>
        requires { E.node end.old ≡ (link_in self).node }
        ensures same { E.same end.old end.new }
        ensures others { OthersStand E.stands (activation_in self) end.old end.new }
        ensures node { IfOk result (λ d. node_in d ≡ (link_in self).node) }
        ensures started { IfOk result (λ d. started_in d ≡ (link_in self).activation) }
        ensures ends { Ends E.stands E.full end.old end.new port.old port.new self result }
    {
        match self.close(end, port) {
            Ok((driver, _)) => Ok(driver),
            Err(driver) => Err(driver),
        }
    }

    /// Ends the activation, and hands out its ledger.
    pub(crate) fn close<E: DriverEnd>(
        self,
        end: &mut E,
        port: &mut Port,
    ) -> Result<(Driver<Reset>, DriverLedger), Driver<Active>>
        requires { E.node end.old ≡ (link_in self).node }
        ensures same { E.same end.old end.new }
        ensures others { OthersStand E.stands (activation_in self) end.old end.new }
        ensures node { IfOk result (λ r. node_in (r.0) ≡ (link_in self).node) }
        ensures started { IfOk result (λ r. started_in (r.0) ≡ (link_in self).activation) }
        ensures ledger { IfOk result (λ r. r.1 ≡ self.state.ledger) }
        ensures ends { Ends E.stands E.full end.old end.new port.old port.new self result }
    {
        if came_back(end.give(self.activation(), Up::Stop)) {
            return Err(self);
        }
        port.enter_reset();
        let Driver {
            state: Active { ledger },
        } = self;
        let id = ledger.id();
        let driver = Driver {
            state: Reset {
                node: id.node,
                activation: id.activation,
            },
        };
        Ok((driver, ledger))
    }

    /// Takes in all that the link shows, and says whether the window is there.
    ///
    /// Error: [`LostWindow`] where bus-off is known.
    pub fn look<E: DriverEnd>(&mut self, end: &mut E) -> Result<(), LostWindow>
        requires { E.node end.old ≡ (link_in self.old).node }
        ensures same { E.same end.old end.new }
        ensures others { OthersStand E.stands (activation_in self.old) end.old end.new }
        ensures took { TakesIn E.stands E.dry end.old end.new self.old self.new }
        ensures on { OnOk result (off_in self.new ≡ false) }
        ensures stopped { OnErr result (off_in self.new ≡ true) }
    {
        self.state.ledger.look(end)
    }

    /// Takes in all that the link shows, and shows the first message that was got and not released, or none. Nothing is
    /// given: a message that is shown is still held.
    ///
    /// Error: [`LostWindow`] where bus-off is known.
    pub fn window<E: DriverEnd>(&mut self, end: &mut E) -> Result<Option<&Message>, LostWindow>
        requires { E.node end.old ≡ (link_in self.old).node }
        ensures same { E.same end.old end.new }
        ensures others { OthersStand E.stands (activation_in self.old) end.old end.new }
        ensures* after { sem 𝓛 (follows_so (the_row active_row) (the_row active_row) self.entry.ghost_name none
            (λ _ _. ⊤) (λ n.
            (link_in n ≡ link_in self.old)
            × Pulls (on E.stands (activation_in self.old)) end.old end.new (held_in self.old) (held_in n)
            (off_in self.old) (off_in n)
            × IsTaken (is_on E.dry (activation_in self.old)) end.new (off_in n) (held_in n)
            × Shows (off_in n) (held_in n) (window_in result))) }
    {
        match self.look(end) {
            Ok(()) => Ok(self.state.ledger.first()),
            Err(fault) => Err(fault),
        }
    }

    /// Takes in all that the link shows, and releases the first message that was got and not released: its credit is
    /// given. The answer is its length, 3 to 13. Tests and benches alone call it: a step hands out the message too.
    ///
    /// Errors, the first that holds: [`ReleaseFault::Stopped`] where bus-off is known; [`ReleaseFault::Empty`] where no
    /// such message is there; [`ReleaseFault::Busy`] where the end gave the credit back. Nothing is released then.
    pub fn release<E: DriverEnd>(&mut self, end: &mut E) -> Result<u8, ReleaseFault>
        requires { E.node end.old ≡ (link_in self.old).node }
        ensures link { link_in self.new ≡ link_in self.old }
        ensures same { E.same end.old end.new }
        ensures others { OthersStand E.stands (activation_in self.old) end.old end.new }
        ensures ok { IfOk result (λ n. (m : List ℕ) × (length m ≡ n)
            × Releases (same_on E.same E.stands (activation_in self.old)) (on E.stands (activation_in self.old))
            (is_on E.dry (activation_in self.old)) end.old end.new (held_in self.old) (held_in self.new)
            (off_in self.old) (off_in self.new) m) }
        ensures on { OnOk result (off_in self.new ≡ false) }
        ensures err { OnErr result (Pulls (on E.stands (activation_in self.old)) end.old end.new (held_in self.old)
            (held_in self.new) (off_in self.old) (off_in self.new)) }
        ensures stopped { result ≡ Err FaultStopped → off_in self.new ≡ true }
        ensures empty { result ≡ Err Empty → (off_in self.new ≡ false) × (held_in self.new ≡ [])
            × E.dry end.new (activation_in self.old) }
        ensures busy { result ≡ Err ReleaseBusy → (off_in self.new ≡ false)
            × Refuses (same_on E.same E.stands (activation_in self.old)) (on E.stands (activation_in self.old))
            (is_on E.dry (activation_in self.old)) (is_on E.full (activation_in self.old)) end.old
            (off_in self.new) (held_in self.new) }
    {
        self.state.ledger.release(end)
    }

    /// The same as [`release`](Driver::release), but it hands out the message that it released.
    ///
    /// Errors: those of [`release`](Driver::release).
    pub fn release_message<E: DriverEnd>(&mut self, end: &mut E) -> Result<Message, ReleaseFault>
        requires { E.node end.old ≡ (link_in self.old).node }
        ensures link { link_in self.new ≡ link_in self.old }
        ensures same { E.same end.old end.new }
        ensures others { OthersStand E.stands (activation_in self.old) end.old end.new }
        ensures tried { TriesRelease (same_on E.same E.stands (activation_in self.old))
            (on E.stands (activation_in self.old)) (is_on E.dry (activation_in self.old))
            (is_on E.full (activation_in self.old)) end.old end.new (held_in self.old) (held_in self.new)
            (off_in self.old) (off_in self.new) result }
    {
        self.state.ledger.release_message(end)
    }
}

/// Whether the end gave the stop back.
fn came_back(given: Result<(), Up>) -> bool
    ensures { result ≡ is_err given }
{
    given.is_err()
}
