//! The figure of what a driver reads for a frame.

use super::sessions::{FRAME, load, read, run as run_bits, session_of, start, write};
use sja_session::Session;
use std::alloc::Global;

/// How many reads are done in one session: there is room for 65,535 steps of a node.
const ACCESSES: u32 = 48_000;

/// How many bits a session has: the message that is read comes in them.
const BITS: u32 = 200;

/// How many reads a driver does for a frame: SR of both nodes, and the 13 bytes of the message.
const READS: u32 = 15;

/// Has a session read so many times: SR of both nodes and the 13 bytes of the second node's message, again and again.
pub fn run(alloc: Global, count: u32) -> Option<String> {
    let mut sum = 0u64;
    for _ in 0..count / ACCESSES {
        sum = sum.wrapping_add(sum_of_reads(alloc, ACCESSES)?);
    }
    sum = sum.wrapping_add(sum_of_reads(alloc, count % ACCESSES)?);
    format!(in alloc; "accesses {count} sum {sum}").ok()
}

/// The sum of what so many reads answer, after a message came to the second node.
fn sum_of_reads(alloc: Global, count: u32) -> Option<u64> {
    let mut session = session_of(alloc, BITS)?;
    start(&mut session)?;
    load(&mut session)?;
    write(&mut session, 0, 1, 0x01)?;
    run_bits(&mut session, BITS)?;
    sum_in(&mut session, count)
}

/// The same, in this session.
fn sum_in(session: &mut Session, count: u32) -> Option<u64> {
    let mut sum = 0u64;
    for access in 0..count {
        sum = sum.wrapping_add(u64::from(read_next(session, access % READS)?));
    }
    Some(sum)
}

/// Does one of these 15 reads.
fn read_next(session: &mut Session, access: u32) -> Option<u8> {
    match access {
        0 => read(session, 0, 2),
        1 => read(session, 1, 2),
        _ => {
            let place = access.checked_sub(2)?;
            let (address, _) = *FRAME.get(place as usize)?;
            read(session, 1, address)
        }
    }
}
