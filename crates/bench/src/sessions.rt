//! The figures of sessions: registers are read and written by address, and frames pass between two drivers of addresses
//! and bytes.

use sja_session::Session;
use std::alloc::Global;

/// How many registers are read in one session: there is room for 65,535 steps of a node.
const READS: u32 = 50_000;

/// How many writes are done in one session, each of which is one step.
const WRITES: u32 = 48_000;

/// How many commands are done in one session.
const COMMANDS: u32 = 40_000;

/// What is written to CMR, one after the other: TR, TR with AT, and SRR, each with AT after it; CDO, and RRB.
const COMMANDED: [u8; 8] = [0x01, 0x02, 0x03, 0x02, 0x10, 0x02, 0x08, 0x04];

/// The bits of the longest kind of frame with intermission, and the bit in which it is asked for again.
pub const BITS: u32 = 145;

/// The bits in which started nodes wait for the bus.
pub const WAITING: u32 = 11;

/// How many frames pass in one session.
const FRAMES: u32 = 1_300;

/// The transmit buffer of an extended data frame with eight data bytes: addresses, and what is written there.
pub const FRAME: [(u8, u8); 13] = [
    (16, 0x88),
    (17, 0x91),
    (18, 0xa2),
    (19, 0xb3),
    (20, 0xc0),
    (21, 0x11),
    (22, 0x22),
    (23, 0x33),
    (24, 0x44),
    (25, 0x55),
    (26, 0x66),
    (27, 0x77),
    (28, 0x88),
];

/// Has SR of the second of two nodes read so many times.
pub fn reads_told(alloc: Global, count: u32) -> Option<String> {
    let mut sum = 0u64;
    for _ in 0..count / READS {
        sum = sum.wrapping_add(sum_of_reads(alloc, READS)?);
    }
    sum = sum.wrapping_add(sum_of_reads(alloc, count % READS)?);
    format!(in alloc; "accesses {count} sum {sum}").ok()
}

/// The sum of what so many reads of SR answer.
fn sum_of_reads(alloc: Global, count: u32) -> Option<u64> {
    let mut session = session_of(alloc, 100)?;
    sum_in(&mut session, count)
}

/// The same, in this session.
fn sum_in(session: &mut Session, count: u32) -> Option<u64> {
    let mut sum = 0u64;
    for _ in 0..count {
        sum = sum.wrapping_add(u64::from(read(session, 1, 2)?));
    }
    Some(sum)
}

/// Has the second of two nodes written so many times: MOD, IER, CMR to clear data overrun, and the 13 addresses of the
/// transmit buffer, again and again.
pub fn writes_told(alloc: Global, count: u32) -> Option<String> {
    let mut done = 0u64;
    for _ in 0..count / WRITES {
        done = done.wrapping_add(writes_of(alloc, WRITES)?);
    }
    done = done.wrapping_add(writes_of(alloc, count % WRITES)?);
    format!(in alloc; "accesses {count} done {done}").ok()
}

/// How many of so many writes were done, out of reset mode.
fn writes_of(alloc: Global, count: u32) -> Option<u64> {
    let mut session = session_of(alloc, 100)?;
    writes_in(&mut session, count)
}

/// The same, in this session.
fn writes_in(session: &mut Session, count: u32) -> Option<u64> {
    write(session, 1, 0, 0x00)?;
    let mut done = 0u64;
    for access in 0..count {
        if write_next(session, access % 16).is_some() {
            done = done.wrapping_add(1);
        }
    }
    Some(done)
}

/// Does one of these 16 writes.
fn write_next(session: &mut Session, access: u32) -> Option<()> {
    let (address, value) = written_next(access)?;
    write(session, 1, address, value)
}

/// Where one of these 16 writes goes, and what it writes.
fn written_next(access: u32) -> Option<(u8, u8)> {
    match access {
        0 => Some((0, 0x00)),
        1 => Some((4, 0xff)),
        2 => Some((1, 0x08)),
        _ => {
            let place = access.checked_sub(3)?;
            FRAME.get(place as usize).copied()
        }
    }
}

/// Has CMR of the second of two nodes written so many times: each of the commands in turn, and a bit after each AT.
pub fn commands_told(alloc: Global, count: u32) -> Option<String> {
    let mut done = 0u64;
    for _ in 0..count / COMMANDS {
        done = done.wrapping_add(commands_of(alloc, COMMANDS)?);
    }
    done = done.wrapping_add(commands_of(alloc, count % COMMANDS)?);
    format!(in alloc; "accesses {count} done {done}").ok()
}

/// How many of so many commands were done, out of reset mode.
fn commands_of(alloc: Global, count: u32) -> Option<u64> {
    let mut session = session_of(alloc, COMMANDS)?;
    commands_in(&mut session, count)
}

/// The same, in this session.
fn commands_in(session: &mut Session, count: u32) -> Option<u64> {
    write(session, 1, 0, 0x00)?;
    let mut done = 0u64;
    for access in 0..count {
        if command_next(session, access % 8).is_some() {
            done = done.wrapping_add(1);
        }
    }
    Some(done)
}

/// Does one of these eight commands. The bit after AT is that in which the request is given up.
fn command_next(session: &mut Session, access: u32) -> Option<()> {
    let value = *COMMANDED.get(access as usize)?;
    write(session, 1, 1, value)?;
    if value == 0x02 {
        run(session, 1)?;
    }
    Some(())
}

/// Lets the bits of so many frames pass. Before each the first driver asks for one, and after it the second one
/// releases it.
pub fn frames_told(alloc: Global, count: u32) -> Option<String> {
    let mut released = 0u64;
    for _ in 0..count / FRAMES {
        released = released.wrapping_add(released_of(alloc, FRAMES)?);
    }
    released = released.wrapping_add(released_of(alloc, count % FRAMES)?);
    let bits = u64::from(count).wrapping_mul(u64::from(2 * BITS));
    format!(in alloc; "bits {bits} released {released}").ok()
}

/// How many frames the second driver found and released in a session of so many frames.
fn released_of(alloc: Global, frames: u32) -> Option<u64> {
    let bits = frames.checked_mul(BITS)?.checked_add(WAITING)?;
    let mut session = session_of(alloc, bits)?;
    released_in(&mut session, frames)
}

/// The same, in this session.
fn released_in(session: &mut Session, frames: u32) -> Option<u64> {
    start(session)?;
    let mut released = 0u64;
    for _ in 0..frames {
        if is_released(session)? {
            released = released.wrapping_add(1);
        }
    }
    Some(released)
}

/// Lets the bits of a frame pass, and says whether the second driver found it; then it released it.
fn is_released(session: &mut Session) -> Option<bool> {
    ask(session)?;
    run(session, BITS)?;
    if read(session, 1, 2)? & 0x01 == 0 {
        return Some(false);
    }
    write(session, 1, 1, 0x04)?;
    Some(true)
}

/// Has the first driver write the transmit buffer and request its transmission.
fn ask(session: &mut Session) -> Option<()> {
    load(session)?;
    write(session, 0, 1, 0x01)
}

/// Takes both nodes out of reset mode, and lets them wait for the bus.
pub fn start(session: &mut Session) -> Option<()> {
    write(session, 0, 0, 0x00)?;
    write(session, 1, 0, 0x00)?;
    run(session, WAITING)
}

/// Writes the first node's transmit buffer.
pub fn load(session: &mut Session) -> Option<()> {
    for (address, value) in FRAME {
        write(session, 0, address, value)?;
    }
    Some(())
}

/// A session of version 3 with two nodes and so many bits. What a session promises stays out of the proofs of what is
/// measured, here and in the three calls below.
pub fn session_of(alloc: Global, bits: u32) -> Option<Session> {
    Session::new(alloc, 3, bits, 2).ok()
}

/// What a read of an address of a node answers.
#[inline(always)]
pub fn read(session: &mut Session, node: u8, address: u8) -> Option<u8> {
    session.read(node, address).ok()
}

/// A write of a byte to an address of a node.
#[inline(always)]
pub fn write(session: &mut Session, node: u8, address: u8, value: u8) -> Option<()> {
    session.write(node, address, value).ok()
}

/// So many bits.
#[inline(always)]
pub fn run(session: &mut Session, count: u32) -> Option<()> {
    match session.bits(count) {
        Ok(_) => Some(()),
        Err(_) => None,
    }
}
