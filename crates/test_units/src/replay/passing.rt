//! Bits that tell nothing, passed in short.

use super::given::{bit, on_the_bus};
use super::receptions::reception;
use can_levels::Level;
use sja_journal::Journal;
use sja_replay::{BitEvent, Replay, ShortBit};
use std::alloc::Global;
use std::test::Fail;

/// How many bits of a journal are passed in short. What is told of each in short is told of it in full by a replay that
/// passes none so, and of each other bit both tell the same.
fn in_short(journal: &Journal) -> Result<u32, Fail> {
    let mut quick = Replay::of(journal);
    let mut whole = Replay::of(journal);
    let mut count = 0u32;
    for _ in 0..10_000 {
        let short = quick.pass();
        let told = whole.next();
        if let Some(short) = short {
            if !is_told_by(&short, &told) {
                return Err(Fail::from("a bit in short is another"));
            }
            count = count.saturating_add(1);
        } else {
            if quick.next() != told {
                return Err(Fail::from("a bit in full is another"));
            }
            if told.is_none() {
                return Ok(count);
            }
        }
    }
    Ok(count)
}

/// Whether a bit in full is the bit in short, and nothing is told of it.
fn is_told_by(short: &ShortBit, told: &Option<BitEvent>) -> bool {
    let Some(told) = told else {
        return false;
    };
    let events = &told.events;
    told.driven == short.driven
        && told.seen == short.seen
        && told.before.phase == short.phase
        && told.after.phase == short.phase
        && told.before.segment == short.segment
        && told.before.transmits == short.transmits
        && told.before.counters == short.counters
        && told.after.counters == short.counters
        && told.before.flag == short.flag
        && !told.aborted
        && told.reception.is_none()
        && events.received.is_none()
        && events.lost.is_none()
        && events.fault.is_none()
}

/// Bit 0 has a start before it. With bits 10 and 11, which end the waiting and are SOF, with bit 71, in which the frame
/// is valid, and with bits 72 and 75, the last of EOF and of the intermission, the phase changes or something is told.
/// The 70 others tell nothing, the node's own acknowledgement in bit 64 among them.
#[test]
fn most_bits_of_a_reception_are_passed_in_short(rt: HostRuntime) -> Result<(), Fail> {
    assert!(rt; in_short(&reception(rt.alloc())?)? == 70);
    Ok(())
}

/// Five idle bits on the bus, and then these: of each the level driven and the level seen.
fn idle_and(alloc: Global, bits: &[(Level, Level)]) -> Result<Journal, Fail> {
    let mut journal = on_the_bus(alloc)?;
    for _ in 0..5 {
        bit(&mut journal, Level::Recessive, Level::Recessive)?;
    }
    for (driven, seen) in bits {
        bit(&mut journal, *driven, *seen)?;
    }
    Ok(journal.into_journal()?)
}

/// Bits 1 to 9 are waited through, and five more are idle; then a frame begins, and then the node is said to drive what
/// it doesn't drive.
#[test]
fn a_frame_does_not_begin_in_short(rt: HostRuntime) -> Result<(), Fail> {
    let start = (Level::Recessive, Level::Dominant);
    let driven = (Level::Dominant, Level::Dominant);
    for bits in [&[][..], &[start], &[start, driven]] {
        assert!(rt; in_short(&idle_and(rt.alloc(), bits)?)? == 14);
    }
    Ok(())
}
