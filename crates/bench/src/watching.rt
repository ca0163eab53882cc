//! The figures of the bits of a session: idle ones and those of frames, watched and unwatched.

use super::sessions::{BITS, WAITING, load, run as run_bits, session_of, start, write};
use sja_session::Session;
use std::alloc::Global;

/// How many times the bits of a frame are run in one session.
const TIMES: u32 = 1_300;

/// How bits are run.
#[derive(Clone, Copy)]
pub struct Watching {
    /// Whether the first node sends a frame each time, which the second one releases.
    pub busy: bool,
    /// Whether the interrupt lines of both nodes are watched.
    pub watched: bool,
}

/// Idle bits.
pub const IDLE: Watching = Watching {
    busy: false,
    watched: false,
};

/// Idle bits whose lines are watched.
pub const IDLE_WATCHED: Watching = Watching {
    watched: true,
    ..IDLE
};

/// The bits of frames.
pub const BUSY: Watching = Watching {
    busy: true,
    watched: false,
};

/// The bits of frames whose lines are watched.
pub const BUSY_WATCHED: Watching = Watching {
    watched: true,
    ..BUSY
};

/// Lets the bits of a frame pass so many times, in sessions of two nodes, and says how often a watched line rose.
pub fn run(alloc: Global, count: u32, watching: Watching) -> Option<String> {
    let mut rose = 0u64;
    for _ in 0..count / TIMES {
        rose = rose.wrapping_add(rose_of(alloc, TIMES, watching)?);
    }
    rose = rose.wrapping_add(rose_of(alloc, count % TIMES, watching)?);
    let bits = u64::from(count).wrapping_mul(u64::from(2 * BITS));
    format!(in alloc; "bits {bits} rose {rose}").ok()
}

/// How often a watched line rose in a session in which they pass so many times.
fn rose_of(alloc: Global, times: u32, watching: Watching) -> Option<u64> {
    let bits = times.checked_mul(BITS)?.checked_add(WAITING)?;
    let mut session = session_of(alloc, bits)?;
    start(&mut session)?;
    load(&mut session)?;
    write(&mut session, 1, 4, 0x01)?;
    rose_in(&mut session, times, watching)
}

/// The same, in this session, whose nodes wait no more.
fn rose_in(session: &mut Session, times: u32, watching: Watching) -> Option<u64> {
    let mut rose = 0u64;
    for _ in 0..times {
        if has_risen(session, watching)? {
            rose = rose.wrapping_add(1);
        }
    }
    Some(rose)
}

/// Lets the bits of a frame pass, and says whether a watched line rose in them. Where the first node sends, the second
/// one releases the message once its line rose or all have passed.
fn has_risen(session: &mut Session, watching: Watching) -> Option<bool> {
    if watching.busy {
        write(session, 0, 1, 0x01)?;
    }
    let first = pass(session, BITS, watching)?;
    if watching.busy {
        write(session, 1, 1, 0x04)?;
    }
    if first == BITS {
        return Some(false);
    }
    let _ = pass(session, BITS.checked_sub(first)?, watching)?;
    Some(true)
}

/// Lets so many bits pass, or, where lines are watched, those up to the first in which one rises. It says how many.
fn pass(session: &mut Session, count: u32, watching: Watching) -> Option<u32> {
    if watching.watched {
        return watch(session, count);
    }
    run_bits(session, count)?;
    Some(count)
}

/// The same, where lines are watched.
#[inline(always)]
fn watch(session: &mut Session, count: u32) -> Option<u32> {
    match session.watch(count, [true; 8]) {
        Ok(watched) => Some(watched.bits),
        Err(_) => None,
    }
}
