//! A session without an end, which is struck in bits far ahead, and has neither plan nor log; and the strikes of one
//! that has one.

use sja_session::{NoPlan, Session, StrikeFault};
use std::alloc::Global;
use std::test::Fail;

/// A session of two nodes of which node 0 is about to send a message of two bytes.
fn session_of(alloc: Global) -> Result<Session, Fail> {
    let mut session = Session::endless(alloc, 2)?;
    session.write(1, 0, 0)?;
    for (address, value) in [
        (0, 0),
        (16, 0x02),
        (17, 0x24),
        (18, 0x60),
        (19, 0x11),
        (20, 0x22),
        (1, 1),
    ] {
        session.write(0, address, value)?;
    }
    Ok(session)
}

/// How many bits it takes until both nodes are at rest, where node 1 is struck in this one.
fn until_rest(alloc: Global, bit: u64) -> Result<u32, Fail> {
    let mut session = session_of(alloc)?;
    session.strike(1, bit)?;
    Ok(session.rest()?.bits)
}

/// No bit is taken for the one that has the same 32 bits.
#[test]
fn a_strike_far_ahead_strikes_none_before(rt: HostRuntime) -> Result<(), Fail> {
    let unstruck = until_rest(rt.alloc(), (1 << 62) - 1)?;
    assert!(rt; until_rest(rt.alloc(), (1 << 32) + 51)? == unstruck);
    assert!(rt; until_rest(rt.alloc(), 51)? > unstruck);
    Ok(())
}

/// All bits from the next one on, of the 2^62 that it has.
#[test]
fn a_session_without_an_end_is_struck_in_any_bit_ahead(rt: HostRuntime) -> Result<(), Fail> {
    let mut session = session_of(rt.alloc())?;
    assert!(rt; session.bits(40) == Ok(40));
    assert!(rt; session.strike(1, 39) == Err(StrikeFault::Past));
    assert!(rt; session.strike(1, 40) == Ok(()));
    assert!(rt; session.strike(1, 1 << 32) == Ok(()));
    assert!(rt; session.strike(1, (1 << 62) - 1) == Ok(()));
    assert!(rt; session.strike(1, 1 << 62) == Err(StrikeFault::NoBit));
    assert!(rt; session.strike(2, 40) == Err(StrikeFault::NoNode));
    Ok(())
}

#[test]
fn a_session_without_an_end_has_neither_plan_nor_log(rt: HostRuntime) -> Result<(), Fail> {
    let session = session_of(rt.alloc())?;
    assert!(rt; session.plan(rt.alloc()).err() == Some(NoPlan::Endless));
    assert!(rt; session.strikes().err() == Some(NoPlan::Endless));
    assert!(rt; session.finish(rt.alloc()).err() == Some(NoPlan::Endless));
    Ok(())
}

/// One with an end gives its strikes, in the order in which they were taken.
#[test]
fn a_session_with_an_end_gives_its_strikes(rt: HostRuntime) -> Result<(), Fail> {
    let mut session = Session::new(rt.alloc(), 3, 100, 2)?;
    assert!(rt; session.strikes()?.is_empty());
    session.strike(1, 51)?;
    session.strike(0, 20)?;
    let strikes = session.strikes()?;
    assert!(rt; strikes.len() == 2);
    assert!(rt; (strikes[0].node, strikes[0].bit) == (1, 51));
    assert!(rt; (strikes[1].node, strikes[1].bit) == (0, 20));
    Ok(())
}
