//! Calls of the drivers of a bus.

use super::many::{rounds, sends, severals};
use super::rig::Rig;
use super::row_answers::RowAnswers;
use super::words::{item_of, small};
use sja_driver::CommandFault;
use sja_journal::Down;
use sja_link::ReleaseFault;
use sja_regs::RegFault;
use test_words::{address, byte, message_of};

/// Does a call of a driver, and says what it answers.
///
/// `start 0` and `stop 0`; `load 0 00 24 60`, a message; `command 0 01`; `read 0 SR TXERR`; `write 0 MOD 03`;
/// `release 0`; `unread 0`, how many messages it got and didn't release; past the driver `give 1 1 start`, whether an
/// item is taken on the link of the first activation of node 1, `get 1 1`, the next one on it, and `left 1 1`, how many
/// lie downward on it; and [`rounds`], [`sends`] and [`severals`].
pub fn of_driver(told: &mut RowAnswers, rig: &mut Rig, name: &str, rest: &[&str]) {
    match (name, rest) {
        ("start" | "stop", [node]) => told.made(changed(rig, name, node)),
        ("command", [node, value]) => told.done(commanded(rig, node, value)),
        ("release", [node]) => told.count(released(rig, node)),
        ("unread", [node]) => told.counted(unread(rig, node)),
        ("read" | "write" | "load", [node, rest @ ..]) => of_registers(told, rig, name, node, rest),
        _ => past(told, rig, name, rest),
    }
}

/// Starts or stops a controller.
fn changed(rig: &mut Rig, name: &str, node: &str) -> Option<()> {
    let node = small(node)?;
    if name == "start" {
        rig.start(node)
    } else {
        rig.stop(node)
    }
}

/// What a command is answered.
fn commanded(rig: &mut Rig, node: &str, value: &str) -> Option<Result<(), CommandFault>> {
    rig.command(small(node)?, byte(value)?)
}

/// How many bytes are released.
fn released(rig: &mut Rig, node: &str) -> Option<Result<u32, ReleaseFault>> {
    match rig.release(small(node)?)? {
        Ok(bytes) => Some(Ok(u32::from(bytes))),
        Err(fault) => Some(Err(fault)),
    }
}

/// How many messages a driver got and didn't release.
fn unread(rig: &Rig, node: &str) -> Option<u32> {
    u32::try_from(rig.unread(small(node)?)?).ok()
}

/// Reads or writes a register, or loads the transmit buffer.
fn of_registers(told: &mut RowAnswers, rig: &mut Rig, name: &str, node: &str, rest: &[&str]) {
    match (name, rest) {
        ("read", addresses) => reads(told, rig, node, addresses),
        ("write", [addr, value]) => told.done(write_register(rig, node, addr, value)),
        _ => told.made(loaded(rig, node, rest)),
    }
}

/// Reads registers, one after the other.
fn reads(told: &mut RowAnswers, rig: &mut Rig, node: &str, addresses: &[&str]) {
    for addr in addresses {
        match read(rig, node, addr) {
            Some(Ok(value)) => told.value(value),
            Some(Err(fault)) => told.name(fault),
            None => told.unread(),
        }
    }
}

/// What a read is answered.
fn read(rig: &mut Rig, node: &str, addr: &str) -> Option<Result<u8, RegFault>> {
    rig.read(small(node)?, address(addr)?)
}

/// What a write is answered.
fn write_register(
    rig: &mut Rig,
    node: &str,
    addr: &str,
    value: &str,
) -> Option<Result<(), RegFault>> {
    rig.write(small(node)?, address(addr)?, byte(value)?)
}

/// Loads a message.
fn loaded(rig: &mut Rig, node: &str, bytes: &[&str]) -> Option<()> {
    rig.load(small(node)?, &message_of(bytes)?)
}

/// Does a call past the drivers, or one many times.
fn past(told: &mut RowAnswers, rig: &mut Rig, name: &str, rest: &[&str]) {
    match (name, rest) {
        ("give", [node, activation, item]) => told.asked(given(rig, node, activation, item)),
        ("get", [node, activation]) => match got(rig, node, activation) {
            Some(item) => told.say(item),
            None => told.unread(),
        },
        ("left", [node, activation]) => told.counted(left(rig, node, activation)),
        ("rounds", [count]) => told.counted(rounds(rig, count, false)),
        ("rounds", [count, "several"]) => told.counted(rounds(rig, count, true)),
        ("severals", [calls, bits]) => told.counted(severals(rig, calls, bits)),
        ("sends", [node, count]) => told.counted(sends(rig, node, count)),
        _ => told.unread(),
    }
}

/// Whether an item is taken on a link.
fn given(rig: &mut Rig, node: &str, activation: &str, item: &str) -> Option<bool> {
    rig.give(small(node)?, u64::from(small(activation)?), item_of(item)?)
}

/// What a link has next.
fn got(rig: &mut Rig, node: &str, activation: &str) -> Option<&'static str> {
    Some(
        match rig.get(small(node)?, u64::from(small(activation)?))? {
            Some(Down::Message(_)) => "message",
            Some(Down::Off) => "off",
            None => "none",
        },
    )
}

/// How many items lie downward on a link.
fn left(rig: &mut Rig, node: &str, activation: &str) -> Option<u32> {
    u32::try_from(rig.left(small(node)?, u64::from(small(activation)?))?).ok()
}
