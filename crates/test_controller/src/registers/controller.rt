//! [`Controller`]: the registers of a controller, by the calls of its port.

use can_frame::Message;
use can_node_rules::{Config, Request};
use sja_regs::{BufferView, BusTurn, Orders, Port, RegFault};

/// A controller's registers. Each call is that of the port; what the port's call promises stays out of what a row's
/// program has to prove.
#[derive(Drop)]
pub struct Controller {
    port: Port,
}

impl Controller {
    /// After power-on.
    pub fn new(version: u8) -> Controller {
        Controller {
            port: Port::new(version),
        }
    }

    /// Leaves reset mode.
    pub fn leave_reset(&mut self) {
        self.port.leave_reset();
    }

    /// Enters reset mode.
    pub fn enter_reset(&mut self) {
        self.port.enter_reset();
    }

    /// How it starts.
    pub fn config(&self) -> Config {
        self.port.config()
    }

    /// What a read answers.
    pub fn read(&mut self, addr: u8, seen: &BufferView) -> Result<u8, RegFault> {
        self.port.read(addr, seen)
    }

    /// What a write answers.
    pub fn write(&mut self, addr: u8, value: u8) -> Result<(), RegFault> {
        self.port.write(addr, value)
    }

    /// Loads the transmit buffer.
    pub fn load(&mut self, message: &Message) -> Result<(), RegFault> {
        self.port.load(message)
    }

    /// What a command would answer.
    pub fn plan_command(&self, value: u8) -> Result<Option<Request>, RegFault> {
        self.port.plan_command(value)
    }

    /// What a command answers.
    pub fn command(&mut self, value: u8) -> Result<Option<Request>, RegFault> {
        self.port.command(value)
    }

    /// Whether the interrupt line is active.
    pub fn irq(&self, seen: &BufferView) -> bool {
        self.port.irq(seen)
    }

    /// A bit of the bus.
    pub fn bus_turn(&mut self, turn: &BusTurn) {
        self.port.bus_turn(turn);
    }

    /// What the driver wants of the bus.
    pub fn orders(&self) -> Orders {
        self.port.orders()
    }
}
