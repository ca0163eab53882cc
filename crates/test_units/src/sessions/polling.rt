//! A polling driver by addresses and bytes, as `docs/use/LIBRARY.md` shows it.

use sja_regs::address::{BUFFER, CMR, MOD, SR};
use sja_session::Session;
use std::alloc::Global;
use std::test::Fail;

/// A session of two nodes.
fn session_of(alloc: Global) -> Result<Session, Fail> {
    Ok(Session::new(alloc, 2, 400, 2)?)
}

/// What an address reads as.
fn read(session: &mut Session, node: u8, address: u8) -> Result<u8, Fail> {
    Ok(session.read(node, address)?)
}

/// Writes a byte to an address.
fn write(session: &mut Session, node: u8, address: u8, value: u8) -> Result<(), Fail> {
    session.write(node, address, value)?;
    Ok(())
}

/// Runs a bit.
fn bit(session: &mut Session) -> Result<(), Fail> {
    session.bits(1)?;
    Ok(())
}

/// Waits until the controller has a message, bit after bit, and releases it; how many bits that took.
fn poll(session: &mut Session, node: u8) -> Result<u32, Fail> {
    for bits in 0..1_000 {
        if read(session, node, SR)? & 0x01 != 0 {
            write(session, node, CMR, 0x04)?;
            return Ok(bits);
        }
        bit(session)?;
    }
    Ok(1_000)
}

/// Both nodes leave reset mode, and node 0 sends the message 02 24 60 11 22.
fn send(session: &mut Session) -> Result<(), Fail> {
    write(session, 1, MOD, 0x00)?;
    write(session, 0, MOD, 0x00)?;
    let mut address = BUFFER;
    for byte in [0x02u8, 0x24, 0x60, 0x11, 0x22] {
        write(session, 0, address, byte)?;
        address = address.saturating_add(1);
    }
    write(session, 0, CMR, 0x01)
}

/// How many bits it takes until node 1 has the message, and what SR reads as then.
fn polled(session: &mut Session) -> Result<(u32, u8), Fail> {
    let bits = poll(session, 1)?;
    Ok((bits, read(session, 1, SR)?))
}

/// The frame of the message 02 24 60 11 22 stands in bits 11 to 72. It is valid for a receiver with the last but one
/// bit of its end of frame, the 72nd; then the receiver is still in the frame: SR has TBS, TCS and RS.
#[test]
fn a_polling_driver_gets_a_message(rt: HostRuntime) -> Result<(), Fail> {
    let mut session = session_of(rt.alloc())?;
    send(&mut session)?;
    assert!(rt; polled(&mut session)? == (72, 0x1c));
    Ok(())
}
