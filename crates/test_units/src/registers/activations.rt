//! The number of a port's activation, beyond what a byte holds.

use sja_regs::address::ALC;
use sja_regs::{BufferView, Port};
use std::test::Fail;
use test_words::turn_of;

/// What ALC reads as in the 300th activation of a port after a turn of this activation in which arbitration was lost at
/// place 3.
fn captured_of(activation: u64) -> Result<u8, Fail> {
    let mut port = Port::new(3);
    for _ in 0..300 {
        port.enter_reset();
        port.leave_reset();
    }
    let Some(mut turn) = turn_of(&["frame", "lost=03"]) else {
        return Err("no turn")?;
    };
    turn.activation = activation;
    port.bus_turn(&turn);
    let seen = BufferView {
        first: None,
        count: 0,
    };
    Ok(port.read(ALC, &seen)?)
}

#[test]
fn a_turn_is_of_the_300th_activation_or_of_another(rt: HostRuntime) -> Result<(), Fail> {
    assert!(rt; captured_of(300)? == 3);
    for activation in [1, 44, 255, 256, 299, 301] {
        assert!(rt; captured_of(activation)? == 0);
    }
    Ok(())
}
