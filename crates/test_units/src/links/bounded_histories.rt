//! Lists that may forget their oldest items, and recorders over them: what they keep, and how their room is counted.

use can_levels::Level;
use sja_journal::{BoundedHistory, Endless, Entry, HISTORY_LIMIT, Recorder};
use std::alloc::Global;
use std::test::Fail;

/// A list that was made for so many, to which the numbers from 0 up to a count were added.
fn numbers(alloc: Global, room: usize, count: u32) -> Result<BoundedHistory<u32>, Fail> {
    let mut list = BoundedHistory::new(alloc, room)?;
    for number in 0..count {
        list.push(number);
    }
    Ok(list)
}

/// The last item, how many there are, and for how many more it was made.
fn end_of(list: &BoundedHistory<u32>) -> (Option<u32>, usize, usize) {
    (list.last().copied(), list.len(), list.free())
}

#[test]
fn a_list_made_for_few_keeps_them_all(rt: HostRuntime) -> Result<(), Fail> {
    let list = numbers(rt.alloc(), 10_000, 10_000)?;
    assert!(rt; end_of(&list) == (Some(9_999), 10_000, 0));
    assert!(rt; list.is_full() && !list.is_open());
    let whole = list.whole()?;
    for (place, number) in whole.iter().enumerate() {
        assert!(rt; *number as usize == place);
    }
    assert!(rt; whole.len() == 10_000);
    Ok(())
}

/// At each length it counts on, and has its last item: where the memory is full, and where an item more made it empty
/// first.
#[test]
fn a_list_made_for_many_has_its_last_item(rt: HostRuntime) -> Result<(), Fail> {
    let mut list = BoundedHistory::new(rt.alloc(), HISTORY_LIMIT + 1)?;
    assert!(rt; end_of(&list) == (None, 0, HISTORY_LIMIT + 1));
    for number in 0..10_000 {
        list.push(number);
        let count = number as usize + 1;
        assert!(rt; end_of(&list) == (Some(number), count, HISTORY_LIMIT + 1 - count));
    }
    Ok(())
}

/// It goes without forgetting up to the 4,096th item, and again up to the 8,192nd.
#[test]
fn a_list_made_for_many_is_open_until_its_memory_is_full(rt: HostRuntime) -> Result<(), Fail> {
    let mut list = BoundedHistory::new(rt.alloc(), HISTORY_LIMIT + 1)?;
    for number in 0..10_000 {
        assert!(rt; list.is_open() == (number != 4_096 && number != 8_192));
        assert!(rt; !list.is_full());
        list.push(number);
    }
    Ok(())
}

/// Though it has forgotten nothing yet.
#[test]
fn a_list_made_for_many_is_not_read_whole(rt: HostRuntime) -> Result<(), Fail> {
    assert!(rt; numbers(rt.alloc(), HISTORY_LIMIT + 1, 3)?.whole().err() == Some(Endless));
    assert!(rt; numbers(rt.alloc(), HISTORY_LIMIT + 1, 5_000)?.whole().err() == Some(Endless));
    assert!(rt; numbers(rt.alloc(), 10, 3)?.whole()? == [0, 1, 2].as_slice());
    Ok(())
}

/// Copies that are more than its memory holds.
#[test]
fn many_copies_are_added_at_once(rt: HostRuntime) -> Result<(), Fail> {
    let mut list = numbers(rt.alloc(), HISTORY_LIMIT + 1, 4_000)?;
    list.push_copies(100_000, 7);
    assert!(rt; end_of(&list) == (Some(7), 104_000, HISTORY_LIMIT + 1 - 104_000));
    list.push_copies(0, 8);
    assert!(rt; list.last().copied() == Some(7));
    Ok(())
}

/// The room of a recorder for 2^60 bits and no steps: for one entry a bit, for one each 42 bits, and 100.
const LONG: usize = (1 << 60) + (1 << 60) / 42 + 100;

/// 100,000 entries: bits in stretches and alone, and others among them. How much is free is counted on.
#[test]
fn a_recorder_of_a_long_run_takes_entries_on_and_on(rt: HostRuntime) -> Result<(), Fail> {
    let mut journal = Recorder::new(rt.alloc(), 1 << 60, 0)?;
    let levels = [Level::Dominant; 93];
    for round in 0..1_000 {
        journal.enter_bits_reserved(&levels, &levels);
        journal.enter_rest_reserved(4);
        assert!(rt; journal.enter_bit(Level::Dominant, Level::Recessive).is_ok());
        assert!(rt; journal.enter(Entry::Abort).is_ok() && journal.enter(Entry::Off).is_ok());
        assert!(rt; journal.free() == LONG - 100 * (round + 1));
    }
    Ok(())
}

/// One that was made for many bits or for many steps, though it has no entry yet, and then one.
#[test]
fn a_recorder_of_a_long_run_gives_no_journal(rt: HostRuntime) -> Result<(), Fail> {
    for (bits, steps) in [(1 << 46, 0), (1, 1 << 41)] {
        let journal = Recorder::new(rt.alloc(), bits, steps)?;
        assert!(rt; journal.into_journal().err() == Some(Endless));
        let mut journal = Recorder::new(rt.alloc(), bits, steps)?;
        assert!(rt; journal.enter(Entry::Abort).is_ok());
        assert!(rt; journal.into_journal().err() == Some(Endless));
    }
    Ok(())
}

/// A recorder of a short run gives back all of it, also what was entered many at once.
#[test]
fn a_recorder_gives_its_journal(rt: HostRuntime) -> Result<(), Fail> {
    let mut journal = Recorder::new(rt.alloc(), 20_000, 0)?;
    let (driven, seen) = ([Level::Recessive; 100], [Level::Dominant; 100]);
    for _ in 0..100 {
        journal.enter_bits_reserved(&driven, &seen);
    }
    journal.enter_rest_reserved(10_000);
    assert!(rt; journal.is_open() && journal.enter(Entry::Off).is_ok());
    let journal = journal.into_journal()?;
    let mut told = journal.entries();
    for _ in 0..10_000 {
        assert!(rt; told.next_bit() == Some((Level::Recessive, Level::Dominant)));
    }
    assert!(rt; told.rest_bits(20_000) == 10_000);
    told.skip_rest_bits(10_000);
    assert!(rt; told.next() == Some(Entry::Off) && told.next().is_none());
    Ok(())
}

/// A bit more than its room is refused.
#[test]
fn a_recorder_that_is_full_refuses_a_bit(rt: HostRuntime) -> Result<(), Fail> {
    let mut journal = Recorder::new(rt.alloc(), 20_000, 0)?;
    let room = journal.free();
    journal.enter_rest_reserved(room as u32 - 1);
    assert!(rt; journal.enter_bit(Level::Dominant, Level::Dominant).is_ok());
    assert!(rt; journal.free() == 0 && !journal.is_open());
    assert!(rt; journal.enter_bit(Level::Dominant, Level::Dominant).is_err());
    assert!(rt; journal.enter(Entry::Abort) == Err(Entry::Abort));
    Ok(())
}
