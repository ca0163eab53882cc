//! [`Script`]: what a row says.

use super::driven::driven;
use sja_driver::LoggedDriver;
use sja_journal::Down;
use sja_regs::address::IER;
use sja_regs::{BusTurn, Port};
use sja_steps::Step;
use std::alloc::{AllocError, Global};
use test_words::{byte, message_of, step_of, turn_of};

/// What is asked of a driver and its log behind the answers.
#[derive(Clone, Copy)]
pub struct Query {
    /// `released`: the messages that were released, with their activations.
    pub released: bool,
    /// `left`: the messages that each activation left unread.
    pub left: bool,
    /// `counts`: how many activations there were and how many left a ledger, or `endless` where that can't be read, and
    /// how many messages are unread.
    pub counts: bool,
}

/// A port, what is put on the link of the first activation, and the steps.
#[derive(Drop)]
pub struct Script {
    port: Port,
    items: Vec<Down>,
    steps: Vec<Step>,
    /// Windows and releases are done by the calls that see no port.
    apart: bool,
    /// What is asked behind the answers.
    pub asked: Query,
}

impl Script {
    /// A port of version 1 after power-on, a link with nothing on it, and no steps.
    pub fn new(alloc: Global) -> Script {
        Script {
            port: Port::new(1),
            items: Vec::new(alloc),
            steps: Vec::new(alloc),
            apart: false,
            asked: Query {
                released: false,
                left: false,
                counts: false,
            },
        }
    }

    /// Takes a part of a row; none where it is none.
    pub fn reads(&mut self, words: &[&str]) -> Result<Option<()>, AllocError> {
        if self.is_set(words).is_some() {
            return Ok(Some(()));
        }
        match words {
            ["put", "off"] => self.items.push(Down::Off)?,
            ["put", words @ ..] => match message_of(words) {
                Some(message) => self.items.push(Down::Message(message))?,
                None => return Ok(None),
            },
            ["cycle", count] => return self.cycles(count),
            _ => match step_of(words) {
                Some(step) => self.steps.push(step)?,
                None => return Ok(None),
            },
        }
        Ok(Some(()))
    }

    /// Takes a part that says how the port stands or what is asked; none where it is none.
    ///
    /// `version 2`, the port; `closed`, the bits are spent; `apart`; `pending 02 sent`, the port's controller had these
    /// interrupts enabled in a bit with these events, while a request was under way, and was stopped.
    fn is_set(&mut self, words: &[&str]) -> Option<()> {
        match words {
            ["version", version] => self.port = port_of(byte(version)?),
            ["closed"] => self.port.close(),
            ["pending", enabled, words @ ..] => {
                self.port = stopped_after(&turn_of(words)?, byte(enabled)?)?;
            }
            ["apart"] => self.apart = true,
            ["released"] => self.asked.released = true,
            ["left"] => self.asked.left = true,
            ["counts"] => self.asked.counts = true,
            _ => return None,
        }
        Some(())
    }

    /// `cycle 40`: so many times a start and a stop.
    fn cycles(&mut self, count: &str) -> Result<Option<()>, AllocError> {
        let Some(count) = byte(count) else {
            return Ok(None);
        };
        for _ in 0..count {
            self.steps.push(Step::Start)?;
            self.steps.push(Step::Stop)?;
        }
        Ok(Some(()))
    }

    /// The driver after the steps; none where they are too many.
    pub fn driven(mut self, alloc: Global) -> Result<Option<LoggedDriver>, AllocError> {
        let (items, steps) = (self.items.as_slice(), self.steps.as_slice());
        if steps.len() > 1_000 {
            return Ok(None);
        }
        let driver = driven(alloc, &mut self.port, items, steps, self.apart)?;
        Ok(Some(driver))
    }
}

/// A port after power-on.
fn port_of(version: u8) -> Port {
    Port::new(version)
}

/// A port whose controller had these interrupts enabled in that bit, while a request was under way, and was stopped.
fn stopped_after(turn: &BusTurn, enabled: u8) -> Option<Port> {
    let mut port = Port::new(1);
    port.leave_reset();
    port.write(IER, enabled).ok()?;
    port.command(0x01).ok()?;
    port.bus_turn(turn);
    port.enter_reset();
    Some(port)
}
