//! Refused memory: making a link of two rings, or those of a node, answers it.
//!
//! It answers well with and without memory, so that each allocation can be made to fail under it.

use super::given::Rings;
use can_frame::OutOfMemory;
use sja_journal::Down;
use sja_link::{BusEnd, DriverEnd};
use sja_rings::node_pair;

#[test]
fn refused_memory_gives_no_rings(rt: HostRuntime) {
    match Rings::new(rt.alloc()) {
        Ok(mut rings) => {
            assert!(rt; rings.put(Down::Off).is_ok());
            assert!(rt; rings.driver.get() == Some(Down::Off));
        }
        Err(refused) => assert!(rt; refused == OutOfMemory),
    }
}

#[test]
fn refused_memory_gives_no_links_of_a_node(rt: HostRuntime) {
    match node_pair(rt.alloc(), 3) {
        Ok((mut bus, mut driver)) => {
            assert!(rt; bus.node() == 3 && driver.node() == 3);
            assert!(rt; bus.put(64, Down::Off).is_ok());
            assert!(rt; driver.get(1).is_none() && driver.get(64) == Some(Down::Off));
        }
        Err(refused) => assert!(rt; refused == OutOfMemory),
    }
}
