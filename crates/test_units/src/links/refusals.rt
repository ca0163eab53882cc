//! Refused memory: a call that makes room answers it, and a world is then as it was.
//!
//! Each answers well with and without memory, so that each allocation can be made to fail under it.

use can_frame::OutOfMemory;
use sja_journal::Recorder;
use sja_link::{BusEnd, DequeLinks, Event, World};
use test_frames::nodes::PLAIN;

#[test]
fn refused_memory_gives_no_links(rt: HostRuntime) {
    match DequeLinks::new(rt.alloc(), 3, 64) {
        Ok(links) => assert!(rt; BusEnd::node(&links) == 3 && links.first() == 1),
        Err(refused) => assert!(rt; refused == OutOfMemory),
    }
}

#[test]
fn refused_memory_gives_no_journal(rt: HostRuntime) {
    match Recorder::new(rt.alloc(), 10, 1_000) {
        Ok(journal) => assert!(rt;
            journal
                .into_journal()
                .map(|journal| journal.entries().next().is_none())
                == Ok(true)
        ),
        Err(refused) => assert!(rt; refused == OutOfMemory),
    }
}

#[test]
fn refused_memory_changes_no_world(rt: HostRuntime) {
    let mut world = World::new(rt.alloc());
    match world.step(Event::Start(PLAIN)) {
        Ok(allowed) => assert!(rt; allowed && world.step(Event::Take) == Ok(true)),
        Err(refused) => {
            assert!(rt; refused == OutOfMemory);
            assert!(rt; world.step(Event::Take) == Ok(false));
            assert!(rt; world.step(Event::Start(PLAIN)) == Ok(true));
        }
    }
}
