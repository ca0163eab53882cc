//! Writes of a driver that knows addresses and bytes alone, over links that give an item back: the steps from that
//! one on are left, as a write of some byte has them too, and the next try does them.

use super::driver_threads::are_answers;
use can_frame::Message;
use sja_driver::address::RBSA;
use sja_driver::{
    LoggedDriver, UnmodelledRegisters, WorkLog, WriteSteps, is_reset, steps_of_write,
};
use sja_journal::{Down, most_activations};
use sja_link::{BusEnd, DequeLinks, DriverEnd};
use sja_regs::Port;
use sja_regs::address::{BUFFER, CMR, MOD, RMC, SR};
use sja_steps::{Step, StepAnswer, StepRecord};
use std::alloc::Global;
use std::test::Fail;
use test_words::Returning;

/// The node of the driver.
const NODE: u8 = 1;

/// The version of its port.
const VERSION: u8 = 2;

/// A driver without a bus: the answers of its acts, its kept registers, those of its port, and its links.
#[derive(Drop)]
struct Writer {
    driver: LoggedDriver,
    done: Vec<StepRecord>,
    kept: UnmodelledRegisters,
    port: Port,
    links: Returning,
}

impl Writer {
    /// The driver after power-on. On its first link lies a message of three bytes, and the links give an item back once
    /// they took so many.
    fn new(alloc: Global, taken: u32) -> Result<Writer, Fail> {
        Ok(Writer {
            driver: LoggedDriver::new(NODE, WorkLog::new(alloc, VERSION, 0, 100)?),
            done: Vec::new(alloc),
            kept: UnmodelledRegisters::new(),
            port: Port::new(VERSION),
            links: links_with_message(alloc, taken)?,
        })
    }

    /// Tries an act, and gives its answer; none where it isn't done.
    fn tries(&mut self, step: &Step) -> Result<Option<StepAnswer>, Fail> {
        if DriverEnd::node(&self.links) != NODE {
            return Err("not the driver's links")?;
        }
        let Some(answer) = self.driver.step(&mut self.links, &mut self.port, step) else {
            return Ok(None);
        };
        self.kept.answered(&answer);
        self.done.push(StepRecord {
            answer: answer.copy(),
            bits: 0,
        })?;
        Ok(Some(answer))
    }

    /// What an address reads as; none where it isn't read.
    fn read(&mut self, address: u8) -> Result<Option<u8>, Fail> {
        match self.tries(&Step::Read(address))? {
            Some(answer) => Ok(Some(self.kept.read_by(address, &answer))),
            None => Ok(None),
        }
    }

    /// The steps that a write is now.
    fn steps_of(&self, address: u8, value: u8) -> WriteSteps {
        steps_of_write(&self.driver, &self.port, address, value)
    }

    /// Writes an address: the steps that are left of it.
    fn write(&mut self, address: u8, value: u8) -> Result<WriteSteps, Fail> {
        self.kept.write(is_reset(&self.port), address, value);
        let mut left = self.steps_of(address, value);
        let _ = self.goes_on(&mut left)?;
        Ok(left)
    }

    /// Tries the steps that are left of a write, one after the other, and says whether none is left.
    fn goes_on(&mut self, left: &mut WriteSteps) -> Result<bool, Fail> {
        Ok(
            self.does(&mut left.first)?
                && self.does(&mut left.second)?
                && self.does(&mut left.third)?,
        )
    }

    /// Tries a step of a write, where it is left, and says whether it isn't any more.
    fn does(&mut self, part: &mut Option<Step>) -> Result<bool, Fail> {
        let Some(step) = part.take() else {
            return Ok(true);
        };
        if self.tries(&step)?.is_some() {
            return Ok(true);
        }
        *part = Some(step);
        Ok(false)
    }

    /// Fails where these aren't the answers of the acts that were done.
    fn answered(&self, alloc: Global, expected: &str) -> Result<(), Fail> {
        are_answers(alloc, self.done.as_slice(), expected)
    }
}

/// The links of the node with a message on the first one. They give an item back once so many were taken.
fn links_with_message(alloc: Global, taken: u32) -> Result<Returning, Fail> {
    let mut links = DequeLinks::new(alloc, NODE, most_activations(VERSION))?;
    let _ = links.put(1, Down::Message(Message::default()));
    Ok(Returning {
        links,
        left: Some(taken),
    })
}

/// Whether no step of a write is left.
fn is_done(left: &WriteSteps) -> bool {
    left.first.is_none() && left.second.is_none() && left.third.is_none()
}

/// The byte that is left has LOM still, and is the start alone.
#[test]
fn a_start_comes_back_once_lom_was_taken(rt: HostRuntime) -> Result<(), Fail> {
    let mut writer = Writer::new(rt.alloc(), 0)?;
    let mut left = writer.write(MOD, 0xf2)?;
    assert!(rt; left == writer.steps_of(MOD, 0x02) && writer.read(MOD)? == Some(0x03));
    assert!(rt; writer.goes_on(&mut left)? && writer.read(MOD)? == Some(0x02));
    writer.answered(rt.alloc(), "ok, 03, ok, 02")
}

/// RM is 0 until the same byte is written again.
#[test]
fn a_stop_comes_back_and_nothing_changed(rt: HostRuntime) -> Result<(), Fail> {
    let mut writer = Writer::new(rt.alloc(), 1)?;
    assert!(rt; is_done(&writer.write(MOD, 0x00)?));
    let mut left = writer.write(MOD, 0x01)?;
    assert!(rt; left == writer.steps_of(MOD, 0x01) && writer.read(MOD)? == Some(0x00));
    assert!(rt; writer.goes_on(&mut left)? && writer.read(MOD)? == Some(0x01));
    writer.answered(rt.alloc(), "ok, 00, ok, 01")
}

/// Nothing of the command is done, and the same byte is left. RRB is done last.
#[test]
fn a_request_comes_back_before_the_release(rt: HostRuntime) -> Result<(), Fail> {
    let mut writer = Writer::new(rt.alloc(), 1)?;
    assert!(rt; is_done(&writer.write(MOD, 0x00)?) && is_done(&writer.write(BUFFER, 0x00)?));
    let mut left = writer.write(CMR, 0x0d)?;
    assert!(rt; left == writer.steps_of(CMR, 0x0d) && writer.read(SR)? == Some(0x3d));
    assert!(rt; writer.goes_on(&mut left)? && writer.read(SR)? == Some(0x30));
    writer.answered(rt.alloc(), "ok, ok, 3d, ok, 3, 30")
}

/// The release alone is left, as of 04, whatever else the byte had: CDO is done. RBSA moves on with the release.
#[test]
fn a_credit_comes_back_behind_the_command(rt: HostRuntime) -> Result<(), Fail> {
    let mut writer = Writer::new(rt.alloc(), 1)?;
    assert!(rt; is_done(&writer.write(MOD, 0x00)?) && writer.read(RMC)? == Some(0x01));
    let mut left = writer.write(CMR, 0x0c)?;
    assert!(rt; left == writer.steps_of(CMR, 0x04));
    assert!(rt; writer.read(RMC)? == Some(0x01) && writer.read(RBSA)? == Some(0x00));
    assert!(rt; writer.goes_on(&mut left)?);
    assert!(rt; writer.read(RMC)? == Some(0x00) && writer.read(RBSA)? == Some(0x03));
    let none = "refused NoRegister";
    let told = format!(in rt.alloc(); "ok, 01, ok, 01, {none}, 3, 00, {none}")?;
    writer.answered(rt.alloc(), told.as_str())
}
