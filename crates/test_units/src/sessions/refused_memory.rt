//! Refused memory, which strikes no bit.

use sja_session::{Session, StrikeFault};
use std::alloc::Global;

/// A session of two nodes, or none where memory was refused.
fn session_of(alloc: Global) -> Option<Session> {
    Session::new(alloc, 1, 100, 2).ok()
}

/// How many bits a strike struck, or why none.
fn strike(session: &mut Session) -> Result<usize, StrikeFault> {
    session.strike(1, 50)?;
    Ok(1)
}

/// Whether all bits are run.
fn are_run(session: &mut Session) -> bool {
    session.bits(100) == Ok(100)
}

/// How many strikes its plan has; none where memory was refused.
fn strikes(alloc: Global, session: &Session) -> Option<usize> {
    match session.plan(alloc) {
        Ok(plan) => Some(plan.strikes().len()),
        Err(_) => None,
    }
}

/// Refused memory refuses a strike, and the bit isn't struck: each call answers well with and without memory, so that
/// each allocation can be made to fail under it.
#[test]
fn refused_memory_strikes_no_bit(rt: HostRuntime) {
    let Some(mut session) = session_of(rt.alloc()) else {
        return;
    };
    let taken = match strike(&mut session) {
        Ok(taken) => taken,
        Err(fault) => {
            assert!(rt; fault == StrikeFault::Memory);
            0
        }
    };
    assert!(rt; are_run(&mut session));
    let told = strikes(rt.alloc(), &session).unwrap_or(taken);
    assert!(rt; told == taken);
}
