//! Which ends of links are those of a bus: one a node, in order, each with links for as many activations as the bus was
//! made for.

use can_frame::OutOfMemory;
use sja_bus::{are_links_of, serial_links};
use sja_journal::{ACTIVATIONS, Up};
use sja_link::{BusEnd, DequeLinks, DriverEnd};
use sja_rings::{NodeBus, node_pair};
use std::alloc::Global;
use std::test::Fail;
use test_frames::nodes::PLAIN;

/// The ends of two rings each of so many nodes, in order.
fn ring_ends(alloc: Global, nodes: u8) -> Result<Vec<NodeBus>, OutOfMemory> {
    let mut ends = Vec::new(alloc);
    for node in 0..nodes {
        ends.push(node_pair(alloc, node)?.0)?;
    }
    Ok(ends)
}

#[test]
fn ends_of_two_queues_say_how_many_links_they_have(rt: HostRuntime) -> Result<(), Fail> {
    for starts in [0, 1, 8, 63, 64, 65, 1_000, 1 << 56] {
        assert!(rt; DequeLinks::new(rt.alloc(), 3, starts)?.links() == starts);
    }
    Ok(())
}

/// The 65th link takes the queues of the first.
#[test]
fn an_end_has_as_many_links_when_queues_went_on(rt: HostRuntime) -> Result<(), Fail> {
    let mut links = DequeLinks::new(rt.alloc(), 0, 70)?;
    for activation in 1..=66 {
        assert!(rt; links.give(activation, Up::Start(PLAIN)).is_ok());
        assert!(rt; links.take(activation) == Some(Up::Start(PLAIN)));
        assert!(rt; links.links() == 70);
    }
    assert!(rt; links.first() == 3);
    Ok(())
}

#[test]
fn ends_of_two_rings_have_64_links(rt: HostRuntime) -> Result<(), Fail> {
    let (mut bus, _driver) = node_pair(rt.alloc(), 5)?;
    assert!(rt; bus.links() == 64);
    assert!(rt; bus.take(1).is_none() && bus.links() == 64);
    Ok(())
}

#[test]
fn ends_with_another_number_of_links_are_those_of_no_bus(rt: HostRuntime) -> Result<(), Fail> {
    let links = serial_links(rt.alloc(), 3, 8)?;
    assert!(rt; are_links_of(links.as_slice(), 3, 8));
    assert!(rt; !are_links_of(links.as_slice(), 3, 7) && !are_links_of(links.as_slice(), 3, 9));
    let ends = ring_ends(rt.alloc(), 3)?;
    assert!(rt; are_links_of(ends.as_slice(), 3, ACTIVATIONS));
    assert!(rt; !are_links_of(ends.as_slice(), 3, 63) && !are_links_of(ends.as_slice(), 3, 65));
    Ok(())
}

/// The last of them is enough.
#[test]
fn one_end_with_another_number_of_links_is_enough(rt: HostRuntime) -> Result<(), Fail> {
    for last in [7, 9] {
        let mut links = serial_links(rt.alloc(), 2, 8)?;
        links.push(DequeLinks::new(rt.alloc(), 2, last)?)?;
        assert!(rt; are_links_of(&links.as_slice()[..2], 2, 8));
        assert!(rt;
            !are_links_of(links.as_slice(), 3, 8) && !are_links_of(links.as_slice(), 3, last)
        );
    }
    Ok(())
}

#[test]
fn there_is_one_end_a_node_in_order(rt: HostRuntime) -> Result<(), Fail> {
    let mut links = serial_links(rt.alloc(), 3, 8)?;
    assert!(rt; !are_links_of(links.as_slice(), 2, 8) && !are_links_of(links.as_slice(), 4, 8));
    links.swap(0, 2);
    assert!(rt; !are_links_of(links.as_slice(), 3, 8));
    Ok(())
}
