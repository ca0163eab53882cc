//! A driver in reset.

ghost use Rattle.std.specs.Prelude.{◌≡◌, ◌⊎◌, ◌+◌, ◌<◌, ◌≤◌, [], ◌∷◌, false, nat_le};
ghost use Rattle.std.specs.Prelude.{OnOk, OnErr, IfOk, IfErr};
ghost use Rattle.sja_journal.specs.Lists.{on, OthersStand};
ghost use Rattle.sja_journal.specs.Sizes.{most_activations};
ghost use Rattle.sja_journal.specs.declared.up.Up.TheVariants.{Start};
ghost use Rattle.sja_regs.specs.Addresses.{register_at};
ghost use Rattle.sja_regs.specs.Reading.{value_at, after_reading_at, or_no_register};
ghost use Rattle.sja_regs.specs.Registers.{config_of};
ghost use Rattle.sja_driver.specs.declared.start_fault.StartFault.TheVariants.{NoActivationLeft, Busy};
ghost use Rattle.sja_driver.specs.Drivers.{node_in, started_in, next_link, link_in, held_in, off_in, nothing_seen};
ghost use Rattle.sja_driver.specs.Calls.{Writes};
ghost use Rattle.sja_driver.specs.Giving.{IsGiven};
ghost use Rattle.sja_driver.specs.Ports.{after_start};

use super::active::Active;
use super::driver::Driver;
use super::start_fault::StartFault;
use can_frame::BufferView;
use sja_journal::{Up, most_activations};
use sja_link::{DriverEnd, DriverLedger, LinkId};
use sja_regs::{Port, RegFault};

/// The state of a driver whose controller it keeps in reset mode: how many activations it has started.
#[derive(Debug, Drop)]
pub struct Reset {
    pub(crate) node: u8,
    pub(crate) activation: u64,
}

impl Driver<Reset> {
    /// The driver of a node, before its first activation.
    pub fn new(node: u8) -> Driver<Reset>
        ensures node { node_in result ≡ node }
        ensures none { started_in result ≡ 0 }
    {
        Driver {
            state: Reset {
                node,
                activation: 0,
            },
        }
    }

    /// The activation that was started last, from 1 on; 0 where there was none.
    pub fn activation(&self) -> u64
        ensures { result ≡ started_in self.now }
    {
        self.state.activation
    }

    /// Whose driver it is, which a start asks of its end. Tests and benches alone ask for it.
    pub fn node(&self) -> u8
        ensures { result ≡ node_in self.now }
    {
        self.state.node
    }

    /// Starts the next activation over its link: the start is given with the port's configuration, and the port leaves
    /// reset mode. The end has to be that of its node's links, or any once all activations were used.
    ///
    /// Errors, the first that holds: [`StartFault::NoActivationLeft`] where as many were used as the port's version
    /// has; [`StartFault::Busy`] where the end gave the start back. This state comes back then, and nothing changed.
    pub fn start<E: DriverEnd>(
        self,
        end: &mut E,
        port: &mut Port,
    ) -> Result<Driver<Active>, (Driver<Reset>, StartFault)>
        requires { started_in self < most_activations port.old.version → E.node end.old ≡ node_in self }
        ensures same { E.same end.old end.new }
        ensures others { OthersStand E.stands (started_in self + 1) end.old end.new }
        ensures left { OnOk result (started_in self < most_activations port.old.version) }
        ensures link { IfOk result (λ d. link_in d ≡ next_link self) }
        ensures fresh { IfOk result (λ d. (held_in d ≡ []) × (off_in d ≡ false)) }
        ensures given { OnOk result (IsGiven (on E.stands (started_in self + 1)) end.old end.new
            (Start (config_of port.old) ∷ [])) }
        ensures port { OnOk result (port.new ≡ after_start port.old) }
        ensures back { IfErr result (λ e. e.0 ≡ self) }
        ensures kept { OnErr result (IsGiven (on E.stands (started_in self + 1)) end.old end.new []) }
        ensures unchanged { OnErr result (port.new ≡ port.old) }
        ensures none_left { most_activations port.old.version ≤ started_in self →
            IfErr result (λ e. e.1 ≡ NoActivationLeft) × (end.new ≡ end.old) }
        ensures busy { IfErr result (λ e. (most_activations port.old.version ≤ started_in self)
            ⊎ (e.1 ≡ Busy) × E.full end.old (started_in self + 1)) }
    {
        if none_left(self.state.activation, port.version()) {
            return Err((self, StartFault::NoActivationLeft));
        }
        if end
            .give(self.state.activation + 1, Up::Start(port.config()))
            .is_err()
        {
            return Err((self, StartFault::Busy));
        }
        port.leave_reset();
        let ledger = DriverLedger::new(LinkId {
            node: self.state.node,
            activation: self.state.activation + 1,
        });
        Ok(Driver {
            state: Active { ledger },
        })
    }

    /// Reads the register at an address. In reset no message is seen.
    ///
    /// Error: [`RegFault::NoRegister`] where no register stands that can be read; nothing changes then.
    pub fn read(&self, port: &mut Port, addr: u8) -> Result<u8, RegFault>
        ensures value { result ≡ or_no_register (value_at port.old nothing_seen (register_at port.old.mode.rm addr)) }
        ensures after { port.new ≡ after_reading_at port.old (register_at port.old.mode.rm addr) }
    {
        let nothing = BufferView {
            first: None,
            count: 0,
        };
        port.read(addr, &nothing)
    }

    /// Writes the register at an address.
    ///
    /// Errors: those of [`Port::write`]. A refusal changes nothing.
    pub fn write(&self, port: &mut Port, addr: u8, value: u8) -> Result<(), RegFault>
        ensures { Writes port.old port.new addr value result }
    {
        port.write(addr, value)
    }
}

/// Whether as many activations were started as a node has in a run of this version.
pub(crate) fn none_left(started: u64, version: u8) -> bool
    ensures { result ≡ nat_le (most_activations version) started }
{
    started >= most_activations(version)
}
