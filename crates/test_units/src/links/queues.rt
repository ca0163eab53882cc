//! The links of a node in one thread: two queues each, and one more link than there are queues.

use super::given::message_of;
use sja_journal::{Down, Up};
use sja_link::{BusEnd, DequeLinks, DriverEnd};
use std::alloc::Global;
use std::test::Fail;
use test_frames::nodes::PLAIN;

/// The links of node 0 for so many activations, of which the first was started and stopped, and then the second
/// started: each of these items was taken by its link before the bus took any.
fn begun_twice(alloc: Global, starts: u64) -> Result<DequeLinks, Fail> {
    let mut links = DequeLinks::new(alloc, 0, starts)?;
    if links.give(1, Up::Start(PLAIN)).is_err() || links.give(1, Up::Stop).is_err() {
        return Err("the first activation")?;
    }
    if links.give(2, Up::Start(PLAIN)).is_err() {
        return Err("the second start")?;
    }
    Ok(links)
}

/// A message of so many bytes, as it is put.
fn put_of(length: u8) -> Result<Down, Fail> {
    Ok(Down::Message(message_of(length)?))
}

#[test]
fn the_next_link_begins_before_the_bus_has_taken_anything(rt: HostRuntime) -> Result<(), Fail> {
    let mut links = begun_twice(rt.alloc(), 64)?;
    assert!(rt; links.take(1) == Some(Up::Start(PLAIN)) && links.take(1) == Some(Up::Stop));
    assert!(rt; links.take(1).is_none());
    assert!(rt; links.take(2) == Some(Up::Start(PLAIN)) && links.take(2).is_none());
    Ok(())
}

#[test]
fn what_is_put_behind_the_next_start_is_got_on_its_own_link(rt: HostRuntime) -> Result<(), Fail> {
    let mut links = begun_twice(rt.alloc(), 64)?;
    assert!(rt; links.put(1, put_of(3)?).is_ok() && links.put(2, put_of(5)?).is_ok());
    assert!(rt; links.get(1) == Some(put_of(3)?) && links.get(1).is_none());
    assert!(rt; links.get(2) == Some(put_of(5)?) && links.get(2).is_none());
    assert!(rt; links.older()?.is_empty());
    Ok(())
}

/// Whether these are links of which the second is the first that has queues, and of the link before just this message
/// was left.
fn is_left(links: &DequeLinks, item: &Down) -> bool {
    let Ok([left]) = links.older() else {
        return false;
    };
    links.first() == 2 && left.activation == 1 && left.item == *item
}

#[test]
fn the_65th_link_begins_once_nothing_lies_upward_on_the_first(rt: HostRuntime) -> Result<(), Fail> {
    let mut links = begun_twice(rt.alloc(), 65)?;
    let item = put_of(3)?;
    assert!(rt; links.put(1, item.copy()).is_ok() && links.put(2, put_of(5)?).is_ok());
    for upward in [Up::Start(PLAIN), Up::Stop] {
        assert!(rt; links.give(65, Up::Start(PLAIN)) == Err(Up::Start(PLAIN)));
        assert!(rt; links.first() == 1 && links.older()?.is_empty());
        assert!(rt; links.take(1) == Some(upward));
    }
    assert!(rt; links.give(65, Up::Start(PLAIN)).is_ok() && is_left(&links, &item));
    assert!(rt; links.put(1, put_of(4)?).is_err() && links.give(1, Up::Stop).is_err());
    assert!(rt; links.get(1).is_none() && links.take(1).is_none());
    assert!(rt; links.get(2) == Some(put_of(5)?) && links.take(2) == Some(Up::Start(PLAIN)));
    assert!(rt; links.take(65) == Some(Up::Start(PLAIN)) && links.give(66, Up::Stop).is_err());
    Ok(())
}

/// How many items lie downward on the link of an activation; nothing where it has no queues.
fn lying(links: &DequeLinks, activation: u64) -> Option<usize> {
    let place = activation.checked_sub(links.first())?;
    let other = links.others().get(usize::try_from(place).ok()?)?;
    let link = if links.at() == activation {
        links.here()
    } else {
        other
    };
    Some(link.down().len())
}

/// Whichever link is at hand: a link is turned to where something is given or taken, and not where nothing lies.
#[test]
fn what_lies_downward_is_seen_link_by_link(rt: HostRuntime) -> Result<(), Fail> {
    let mut links = DequeLinks::new(rt.alloc(), 0, 3)?;
    assert!(rt; links.put(1, put_of(3)?).is_ok() && links.put(1, Down::Off).is_ok());
    assert!(rt; links.put(3, put_of(5)?).is_ok() && links.put(4, put_of(4)?).is_err());
    assert!(rt; links.first() == 1 && links.others().len() == 3);
    for at in [3, 2, 1] {
        let before = links.at();
        assert!(rt; links.take(at).is_none() && links.at() == before);
        assert!(rt; links.give(at, Up::Stop).is_ok() && links.at() == at);
        assert!(rt;
            lying(&links, 1) == Some(2)
                && lying(&links, 2) == Some(0)
                && lying(&links, 3) == Some(1)
        );
    }
    assert!(rt; lying(&links, 0).is_none() && lying(&links, 4).is_none());
    assert!(rt; links.take(3) == Some(Up::Stop) && links.at() == 3);
    Ok(())
}

/// More than 64 links leave 22 items each at most, of which 2^40 are kept.
#[test]
fn what_many_links_may_leave_is_not_read(rt: HostRuntime) -> Result<(), Fail> {
    for (starts, is_read) in [(64, true), (65, true), (1 << 36, false), (1 << 56, false)] {
        let links = DequeLinks::new(rt.alloc(), 0, starts)?;
        assert!(rt; links.older().is_ok() == is_read);
    }
    Ok(())
}
