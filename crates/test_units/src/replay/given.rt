//! Journals to begin with, and what is said of one bit.

use can_frame::Message;
use can_levels::Level;
use sja_journal::{Entry, Journal, Recorder, Up};
use sja_replay::{BitEvent, Replay};
use std::alloc::Global;
use std::test::Fail;
use test_frames::nodes::PLAIN;

/// What is written of a node that was started, and then waited for the bus for 11 bits.
pub fn on_the_bus(alloc: Global) -> Result<Recorder, Fail> {
    let mut journal = Recorder::new(alloc, 200, 1_000)?;
    enter(&mut journal, Entry::Up(Up::Start(PLAIN)))?;
    for _ in 0..11 {
        bit(&mut journal, Level::Recessive, Level::Recessive)?;
    }
    Ok(journal)
}

/// An entry more.
pub fn enter(journal: &mut Recorder, entry: Entry) -> Result<(), Fail> {
    match journal.enter(entry) {
        Ok(()) => Ok(()),
        Err(_) => Err(Fail::from("the journal is full")),
    }
}

/// A bit more.
pub fn bit(journal: &mut Recorder, driven: Level, seen: Level) -> Result<(), Fail> {
    enter(journal, Entry::Bit(driven, seen))
}

/// A message of these bytes.
pub fn message(bytes: &[u8]) -> Result<Message, Fail> {
    Ok(Message::from_bytes(bytes)?)
}

/// The bits of a line from one place up to another, as a receiver has them: it drives recessive but in the ACK slot,
/// which is the level at place `slot`.
pub fn received(
    journal: &mut Recorder,
    line: &str,
    from: usize,
    to: usize,
    slot: usize,
) -> Result<(), Fail> {
    for (place, digit) in line.bytes().enumerate() {
        if place >= from && place < to {
            let seen = if digit == b'0' {
                Level::Dominant
            } else {
                Level::Recessive
            };
            let driven = if place == slot {
                Level::Dominant
            } else {
                Level::Recessive
            };
            bit(journal, driven, seen)?;
        }
    }
    Ok(())
}

/// What the bit of this number brought.
pub fn bit_event(journal: &Journal, number: u32) -> Option<BitEvent> {
    let mut replay = Replay::of(journal);
    for _ in 0..number {
        replay.next()?;
    }
    replay.next()
}

/// How many bits are told.
pub fn count(journal: &Journal) -> u32 {
    let mut replay = Replay::of(journal);
    for told in 0..10_000 {
        if replay.next().is_none() {
            return told;
        }
    }
    10_000
}
