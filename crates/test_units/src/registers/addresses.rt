//! Each address, read and written, in reset mode and out of it.

use sja_regs::address::MOD;
use sja_regs::{BufferView, Port, RegFault, Register};

/// What a read of one address answers after power-on, and what a write.
type Answers = (Result<u8, RegFault>, Result<(), RegFault>);

/// No register stands there.
const NOWHERE: Answers = (Err(RegFault::NoRegister), Err(RegFault::NoRegister));

/// A register that is read as this value.
const fn read_only(value: u8) -> Answers {
    (Ok(value), Err(RegFault::ReadOnly))
}

/// A register that is read as this value, and may be written.
const fn writable(value: u8) -> Answers {
    (Ok(value), Ok(()))
}

/// What an address answers in reset mode, and out of it, by the data sheet's numbers. Present mode bits are written to
/// MOD, and 0 to all others.
fn wanted(addr: u8) -> (Answers, Answers) {
    let command = (Err(RegFault::NoRegister), Err(RegFault::UseTyped));
    let limit = (Ok(0x60), Err(RegFault::ResetOnly));
    match addr {
        0 => (writable(0x01), writable(0x00)),
        1 => (command, command),
        2 => (read_only(0x3c), read_only(0x3c)),
        3 | 11 | 12 | 14 | 15 | 29 => (read_only(0x00), read_only(0x00)),
        4 => (writable(0x00), writable(0x00)),
        13 => (writable(0x60), limit),
        16..=19 => (writable(0x00), writable(0x00)),
        20..=23 => (writable(0xff), writable(0x00)),
        24..=28 => (NOWHERE, writable(0x00)),
        _ => (NOWHERE, NOWHERE),
    }
}

/// What an address answers on this port.
fn answers(mut port: Port, addr: u8, value: u8) -> Answers {
    let seen = BufferView {
        first: None,
        count: 0,
    };
    let read = port.read(addr, &seen);
    (read, port.write(addr, value))
}

/// What an address answers in this version after power-on, where this value is written, and once reset mode was left,
/// where 0 is.
fn answered(version: u8, addr: u8, mode: u8) -> (Answers, Answers) {
    let mut active = Port::new(version);
    active.leave_reset();
    (
        answers(Port::new(version), addr, mode),
        answers(active, addr, 0),
    )
}

#[test]
fn each_address_answers_in_both_versions(rt: HostRuntime) {
    for addr in 0..=255u8 {
        let mode = u8::from(addr == MOD);
        for version in [1, 2] {
            assert!(rt; answered(version, addr, mode) == wanted(addr), "at {addr}");
        }
    }
}

#[test]
fn an_address_is_a_register(rt: HostRuntime) {
    assert!(rt; Register::at(0, true) == Some(Register::Mode));
    assert!(rt; Register::at(23, true) == Some(Register::AcceptanceMask(3)));
    assert!(rt; Register::at(23, false) == Some(Register::Buffer(7)));
    assert!(rt; Register::at(24, true) == None);
}
