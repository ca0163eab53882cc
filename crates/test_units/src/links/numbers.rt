//! The node of links at both their ends, the number of a link at its ledgers, and what lies on its free places.

use super::given::{LINK, message_of};
use sja_journal::{Down, Up, WITHOUT_END, most_activations};
use sja_link::{BusEnd, BusLedger, DequeLinks, DriverEnd, DriverLedger, LinkId};
use std::test::Fail;

#[test]
fn both_ends_are_of_the_node_and_both_ledgers_of_the_link(rt: HostRuntime) -> Result<(), Fail> {
    let links = DequeLinks::new(rt.alloc(), 1, 64)?;
    let number = LinkId {
        node: 1,
        activation: 1,
    };
    assert!(rt; BusEnd::node(&links) == 1 && DriverEnd::node(&links) == 1);
    assert!(rt; BusLedger::new(LINK).id() == number && DriverLedger::new(LINK).id() == number);
    Ok(())
}

/// Each of more activations than are remembered leaves a message on its link.
#[test]
fn links_go_on_where_what_was_left_is_forgotten(rt: HostRuntime) -> Result<(), Fail> {
    let mut links = DequeLinks::new(rt.alloc(), 1, most_activations(WITHOUT_END))?;
    let message = Down::Message(message_of(3)?);
    for activation in 1..=5_000 {
        assert!(rt; links.give(activation, Up::Stop).is_ok());
        assert!(rt; links.take(activation) == Some(Up::Stop));
        assert!(rt; links.put(activation, message.copy()).is_ok());
    }
    assert!(rt; links.first() == 4_937 && links.get(4_936).is_none());
    assert!(rt; links.get(4_937) == Some(message.copy()) && links.get(5_000) == Some(message));
    Ok(())
}

#[test]
fn free_places_have_a_stop_and_the_least_message(rt: HostRuntime) -> Result<(), Fail> {
    assert!(rt; Up::default() == Up::Stop);
    assert!(rt; Down::default() == Down::Message(message_of(3)?));
    Ok(())
}
