//! Journals: entries of each kind come out as they were entered, and the reserved ones are counted.

use super::given::{message_of, request_for};
use can_levels::Level;
use sja_journal::{Entry, Recorder, Up};
use std::alloc::Global;
use std::test::Fail;
use test_frames::nodes::PLAIN;

/// One entry of each kind, and bits with all four pairs of levels.
fn some_of_each(alloc: Global) -> Result<Vec<Entry>, Fail> {
    let request = request_for(&[0, 0x24, 0x60])?;
    let first = message_of(5)?;
    let second = message_of(3)?;
    let overrun = message_of(13)?;
    let entries = [
        Entry::Up(Up::Start(PLAIN)),
        Entry::Bit(Level::Recessive, Level::Recessive),
        Entry::Bit(Level::Dominant, Level::Dominant),
        Entry::Up(Up::Send(request)),
        Entry::Bit(Level::Dominant, Level::Recessive),
        Entry::Stored(first),
        Entry::Bit(Level::Recessive, Level::Dominant),
        Entry::Overrun(overrun),
        Entry::Up(Up::Credit(5)),
        Entry::Abort,
        Entry::Stored(second),
        Entry::Off,
        Entry::Up(Up::Stop),
        Entry::Up(Up::Start(PLAIN)),
    ];
    Ok(Vec::from_array(alloc, entries)?)
}

#[test]
fn a_new_journal_has_no_entries(rt: HostRuntime) -> Result<(), Fail> {
    let journal = Recorder::new(rt.alloc(), 1, 1_000)?;
    assert!(rt; journal.into_journal()?.entries().next().is_none());
    Ok(())
}

#[test]
fn entries_come_out_as_they_were_entered(rt: HostRuntime) -> Result<(), Fail> {
    let mut journal = Recorder::new(rt.alloc(), 1, 1_000)?;
    for entry in some_of_each(rt.alloc())? {
        assert!(rt; journal.enter(entry).is_ok());
    }
    let journal = journal.into_journal()?;
    let mut told = journal.entries();
    for entry in some_of_each(rt.alloc())? {
        assert!(rt; told.next() == Some(entry));
    }
    assert!(rt; told.next().is_none());
    Ok(())
}

#[test]
fn a_bit_is_entered_alike_by_both_calls(rt: HostRuntime) -> Result<(), Fail> {
    let mut journal = Recorder::new(rt.alloc(), 4, 1_000)?;
    for driven in [Level::Dominant, Level::Recessive] {
        for seen in [Level::Dominant, Level::Recessive] {
            assert!(rt; journal.enter_bit(driven, seen).is_ok());
        }
    }
    let journal = journal.into_journal()?;
    let mut told = journal.entries();
    for driven in [Level::Dominant, Level::Recessive] {
        for seen in [Level::Dominant, Level::Recessive] {
            assert!(rt; told.next() == Some(Entry::Bit(driven, seen)));
        }
    }
    Ok(())
}

/// A run of no bits and 1,000 steps has room for 2,100 entries, whatever they are.
#[test]
fn the_reserved_entries_can_be_used_by_any_kind(rt: HostRuntime) -> Result<(), Fail> {
    let mut journal = Recorder::new(rt.alloc(), 0, 1_000)?;
    for _ in 0..2_100 {
        assert!(rt; journal.enter(Entry::Overrun(message_of(4)?)).is_ok());
    }
    assert!(rt; journal.enter(Entry::Abort) == Err(Entry::Abort));
    assert!(rt;
        journal
            .enter_bit(Level::Recessive, Level::Recessive)
            .is_err()
    );
    let journal = journal.into_journal()?;
    let mut told = journal.entries();
    for _ in 0..2_100 {
        assert!(rt; told.next() == Some(Entry::Overrun(message_of(4)?)));
    }
    assert!(rt; told.next().is_none());
    Ok(())
}

/// A run of 84 bits and no steps has room for 102 entries that are no bits, and then for its bits alone.
#[test]
fn entries_that_are_no_bits_have_a_room_of_their_own(rt: HostRuntime) -> Result<(), Fail> {
    let mut journal = Recorder::new(rt.alloc(), 84, 0)?;
    for _ in 0..102 {
        assert!(rt; journal.enter(Entry::Abort).is_ok());
    }
    assert!(rt; journal.enter(Entry::Off) == Err(Entry::Off));
    for _ in 0..84 {
        assert!(rt;
            journal
                .enter(Entry::Bit(Level::Recessive, Level::Dominant))
                .is_ok()
        );
    }
    assert!(rt;
        journal
            .enter_bit(Level::Recessive, Level::Recessive)
            .is_err()
    );
    assert!(rt; journal.free() == 0);
    Ok(())
}
