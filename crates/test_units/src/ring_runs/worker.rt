//! [`Worker`]: the driver of a node with its script and its end of links of two rings.

use super::message_fates::MessageFates;
use sja_driver::{LoggedDriver, WorkLog};
use sja_journal::Down;
use sja_link::DriverEnd;
use sja_regs::Port;
use sja_rings::NodeDriver;
use sja_steps::Step;
use std::alloc::Global;
use std::test::Fail;

/// The driver of a node with its end of links of two rings, and how many steps of its script are done.
#[derive(Drop)]
pub struct Worker {
    driver: LoggedDriver,
    end: NodeDriver,
    node: u8,
    done: usize,
    /// How many steps its log has room for.
    room: usize,
}

impl Worker {
    /// A driver before its first activation, by this version of the rules, whose script has so many steps.
    pub fn new(
        alloc: Global,
        version: u8,
        node: u8,
        end: NodeDriver,
        steps: u16,
    ) -> Result<Worker, Fail> {
        let log = WorkLog::new(alloc, version, u64::from(steps), u64::from(steps))?;
        Ok(Worker {
            driver: LoggedDriver::new(node, log),
            end,
            node,
            done: 0,
            room: usize::from(steps),
        })
    }

    /// Does steps of the script, one after the other, after so many bits: so many, or up to one that has to wait.
    pub fn steps(
        &mut self,
        port: &mut Port,
        script: &[Step],
        count: u32,
        bits: u32,
    ) -> Result<(), Fail> {
        for _ in 0..count {
            let Some(step) = script.get(self.done) else {
                return Ok(());
            };
            if !self.step(port, step, bits)? {
                return Ok(());
            }
        }
        Ok(())
    }

    /// Tries a step, after so many bits. Whether it was done.
    fn step(&mut self, port: &mut Port, step: &Step, bits: u32) -> Result<bool, Fail> {
        if self.room == 0 || self.end.node() != self.node {
            return Err("no room, or not the driver's links")?;
        }
        let Some(answer) = self.driver.step(&mut self.end, port, step) else {
            return Ok(false);
        };
        let kept = self.driver.kept();
        self.driver.enter(answer, u64::from(bits), kept);
        self.room -= 1;
        self.done = self.done.saturating_add(1);
        Ok(true)
    }

    /// How many steps were done.
    pub fn done(&self) -> usize {
        self.done
    }

    /// What its log and its links tell of this activation.
    pub fn collect(&mut self, alloc: Global, activation: u64) -> Result<MessageFates, Fail> {
        let mut told = MessageFates::new(alloc);
        for release in self.driver.log().released()? {
            if release.activation == activation {
                told.released.push(release.message.copy())?;
            }
        }
        let place = (activation as usize).saturating_sub(1);
        if let Some(ledger) = self.driver.log().left()?.get(place) {
            for message in ledger.unread() {
                told.unread.push(message.copy())?;
            }
        } else if activation == self.driver.activation() {
            for message in self.driver.unread() {
                told.unread.push(message.copy())?;
            }
        }
        // A link carries 22 items down at most.
        for _ in 0..22 {
            if let Some(Down::Message(message)) = self.end.get(activation) {
                told.unread.push(message)?;
            }
        }
        Ok(told)
    }
}
