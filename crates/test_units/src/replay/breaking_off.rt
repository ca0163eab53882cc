//! Journals that no bus writes: what stands before the first entry that can't come there is told, and nothing after it.

use super::given::{bit, count, enter, message, on_the_bus, received};
use can_levels::Level;
use sja_journal::{Entry, Recorder, Up};
use sja_replay::Replay;
use std::alloc::Global;
use std::test::Fail;
use test_frames::nodes::PLAIN;
use test_frames::{TWO_BYTES, TWO_BYTES_RECEIVED};

/// How many bits are told of a journal with this entry after 11 bits, and then two bits more.
fn told_with(alloc: Global, entry: Entry) -> Result<u32, Fail> {
    let mut journal = on_the_bus(alloc)?;
    enter(&mut journal, entry)?;
    bit(&mut journal, Level::Recessive, Level::Recessive)?;
    bit(&mut journal, Level::Recessive, Level::Recessive)?;
    Ok(count(&journal.into_journal()?))
}

#[test]
fn an_entry_that_cannot_come_ends_the_replay(rt: HostRuntime) -> Result<(), Fail> {
    assert!(rt; told_with(rt.alloc(), Entry::Up(Up::Start(PLAIN)))? == 11);
    assert!(rt; told_with(rt.alloc(), Entry::Up(Up::Credit(1)))? == 11);
    assert!(rt; told_with(rt.alloc(), Entry::Abort)? == 11);
    assert!(rt; told_with(rt.alloc(), Entry::Off)? == 11);
    assert!(rt; told_with(rt.alloc(), Entry::Stored(message(&TWO_BYTES)?))? == 11);
    assert!(rt; told_with(rt.alloc(), Entry::Overrun(message(&TWO_BYTES)?))? == 11);
    assert!(rt; told_with(rt.alloc(), Entry::Up(Up::Stop))? == 13);
    Ok(())
}

/// After it each further call answers nothing, though a bit stands behind it.
#[test]
fn what_ended_does_not_go_on(rt: HostRuntime) -> Result<(), Fail> {
    let mut journal = Recorder::new(rt.alloc(), 2, 1_000)?;
    enter(&mut journal, Entry::Off)?;
    bit(&mut journal, Level::Recessive, Level::Recessive)?;
    let journal = journal.into_journal()?;
    let mut replay = Replay::of(&journal);
    assert!(rt; replay.next().is_none());
    assert!(rt; replay.next().is_none());
    Ok(())
}

#[test]
fn an_empty_journal_has_no_bit(rt: HostRuntime) -> Result<(), Fail> {
    assert!(rt; count(&Recorder::new(rt.alloc(), 1, 1_000)?.into_journal()?) == 0);
    Ok(())
}

/// A node that only waits for the bus drives recessive.
#[test]
fn a_level_that_the_node_does_not_drive_ends_the_replay(rt: HostRuntime) -> Result<(), Fail> {
    let mut journal = on_the_bus(rt.alloc())?;
    bit(&mut journal, Level::Dominant, Level::Dominant)?;
    assert!(rt; count(&journal.into_journal()?) == 11);
    Ok(())
}

/// 64 bytes are free, so a message of 5 is stored: an overrun can't come behind bit 71.
#[test]
fn a_verdict_that_is_not_fair_ends_the_replay(rt: HostRuntime) -> Result<(), Fail> {
    let mut journal = on_the_bus(rt.alloc())?;
    received(&mut journal, TWO_BYTES_RECEIVED, 0, 61, 53)?;
    enter(&mut journal, Entry::Overrun(message(&TWO_BYTES)?))?;
    assert!(rt; count(&journal.into_journal()?) == 71);
    Ok(())
}
