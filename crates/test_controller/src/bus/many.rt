//! Calls of a driver many times.

use super::rig::Rig;
use super::words::{number, small};
use can_frame::Message;

/// The command that requests a transmission (SJA1000 data sheet, 6.4.4).
const TRANSMIT: u8 = 0x01;

/// The command that aborts it.
const ABORT: u8 = 0x02;

/// `rounds 100`: so often node 0 requests a transmission and aborts it, and one bit is run, with `several` by the call
/// for several. How often all went well, before it didn't.
pub fn rounds(rig: &mut Rig, count: &str, several: bool) -> Option<u32> {
    let count = number(count)?;
    for done in 0..count {
        if !requests(rig) {
            return Some(done);
        }
        let ran = if several {
            rig.bus.several(1, false)? == Ok(1)
        } else {
            rig.bus.bit()?.is_ok()
        };
        if !ran {
            return Some(done);
        }
    }
    Some(count)
}

/// Whether node 0 requests a transmission and aborts it.
fn requests(rig: &mut Rig) -> bool {
    rig.command(0, TRANSMIT) == Some(Ok(())) && rig.command(0, ABORT) == Some(Ok(()))
}

/// `sends 0 21`: so often a node sends the frame of zeros, and bits are run until every node is at rest. How often all
/// went well, before it didn't.
pub fn sends(rig: &mut Rig, node: &str, count: &str) -> Option<u32> {
    let node = small(node)?;
    let count = number(count)?;
    for done in 0..count {
        if !asks(rig, node) || rig.bus.rest()?.is_err() {
            return Some(done);
        }
    }
    Some(count)
}

/// Whether a node takes a request for the frame of zeros.
pub fn asks(rig: &mut Rig, node: u8) -> bool {
    rig.load(node, &Message::default()).is_some() && rig.command(node, TRANSMIT) == Some(Ok(()))
}

/// `severals 57 7`: so many calls for several bits, each for so many. How many calls ran all of theirs, before one
/// didn't.
pub fn severals(rig: &mut Rig, calls: &str, bits: &str) -> Option<u32> {
    let calls = number(calls)?;
    let bits = number(bits)?;
    for done in 0..calls {
        if rig.bus.several(bits, false)? != Ok(bits) {
            return Some(done);
        }
    }
    Some(calls)
}
